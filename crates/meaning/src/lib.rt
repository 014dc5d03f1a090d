// The plain types that every crate shares, and the numbers of the answers. What they mean stands in specs/.
#![tactic(auto)]

ghost use Rattle.std.specs.Prelude.{◌≡◌};
ghost use Rattle.meaning.specs.Answers.{number, start_numbers, feed_numbers, question_numbers, stack_numbers};

// A cell's number and a state's: two types, so that neither is taken for the other.
#[derive(Clone, Copy, Debug, PartialEq, Eq)]
pub struct CellNo(pub u16);

#[derive(Clone, Copy, Debug, PartialEq, Eq, Default)]
pub struct StateNo(pub u16);

// The classes that are no terms, and the first that is one.
pub const END_CLASS: u16 = 0;

pub const ERROR_CLASS: u16 = 1;

pub const START_CLASS: u16 = 2;

pub const FIRST_TERM: u16 = 3;

// The eight limits, which the tests of every crate name, and the records of the error list.
pub const MAX_STATES: u16 = 512;

pub const MAX_CLASSES: u16 = 64;

pub const MAX_NONTERMINALS: u16 = 64;

pub const MAX_RULES: u16 = 256;

pub const MAX_READINGS: u16 = 16;

pub const MAX_HEIGHT: u16 = 64;

pub const MAX_CHAIN: usize = 32;

pub const MAX_WALKED: usize = 1024;

pub const MAX_ERRORS: usize = 32;

// A place for each height, and as many chains in a stage as readings may be left.
pub const HEIGHTS: usize = MAX_HEIGHT as usize;

pub const MAX_CHAINS: usize = MAX_READINGS as usize;

// What is fed: a class, a value and a span.
#[derive(Clone, Copy, Debug, PartialEq, Eq)]
pub struct Term {
    pub class: u16,
    pub value: u32,
    pub start: u32,
    pub end: u32,
}

// What is seen of an entry. Its identity is not shown: no promise says which cell holds it.
#[derive(Clone, Copy, Debug, PartialEq, Eq, Default)]
pub struct Entry {
    pub state: StateNo,
    pub value: u32,
    pub start: u32,
    pub end: u32,
}

// A refused action, or with rule 65,535 a reading that could not be planned.
#[derive(Clone, Copy, Debug, PartialEq, Eq, Default)]
pub struct ErrorRecord {
    pub rule: u16,
    pub state: StateNo,
    pub mark: u32,
}

// Field 1 of a table file.
#[derive(Clone, Copy, Debug, PartialEq, Eq)]
pub struct Counts {
    pub states: u16,
    pub classes: u16,
    pub nonterminals: u16,
    pub rules: u16,
}

// Where a field's data begins and ends.
#[derive(Clone, Copy, Debug, PartialEq, Eq)]
pub struct Field {
    pub at: usize,
    pub end: usize,
}

// What lookups need to know of a checked table file: the counts, where fields 2, 3 and 4 stand, whether the error class is used.
#[derive(Clone, Copy, Debug, PartialEq, Eq)]
pub struct View {
    pub counts: Counts,
    pub rules: Field,
    pub actions: Field,
    pub gotos: Field,
    pub recovers: bool,
}

// A rule of field 2.
#[derive(Clone, Copy, Debug, PartialEq, Eq, Default)]
pub struct Rule {
    pub left: u16,
    pub len: u8,
    pub kind: u8,
    pub pick: u8,
    pub mark: u32,
    pub low: u32,
    pub high: u32,
}

// Why a call changed nothing: the answers 1 to 11, in their order.
#[derive(Clone, Copy, Debug, PartialEq, Eq)]
pub enum Refusal {
    WrongLength = 1,
    WrongTable = 2,
    WrongState = 3,
    Consumed = 4,
    WrongArgument = 5,
    ReachesStart = 6,
    NoGoto = 7,
    TooHigh = 8,
    ChainTooLong = 9,
    WalkTooLong = 10,
    TooManyReadings = 11,
}

impl Refusal {
    pub fn number(self) -> u8
        ensures { result ≡ number self }
    {
        self as u8
    }
}

pub type StartAnswer = Result<(), Refusal>;

pub type FeedAnswer = Result<FeedOutcome, Refusal>;

// Yes is Ok(true), no is Ok(false).
pub type QuestionAnswer = Result<bool, Refusal>;

pub type StackAnswer = Result<StackOutcome, Refusal>;

// Whether a reading took the term, the count of error records, the reductions walked.
#[derive(Clone, Copy, Debug, PartialEq, Eq)]
pub struct FeedOutcome {
    pub taken: bool,
    pub errors: usize,
    pub walked: u32,
}

// The height and the mark of a stack that was read out.
#[derive(Clone, Copy, Debug, PartialEq, Eq)]
pub struct StackOutcome {
    pub height: u16,
    pub mark: u32,
}

// The answers as numbers: 0 for done, 1 to 11 for a refusal, 12 where no reading took the term.
#[derive(Clone, Copy, Debug, PartialEq, Eq)]
pub struct StartNumbers {
    pub answer: u8,
}

impl From<StartAnswer> for StartNumbers {
    ghost from_gives = { λ answer numbers. numbers ≡ start_numbers answer };

    fn from(answer: StartAnswer) -> StartNumbers {
        match answer {
            Ok(()) => StartNumbers { answer: 0 },
            Err(refusal) => StartNumbers {
                answer: refusal.number(),
            },
        }
    }
}

#[derive(Clone, Copy, Debug, PartialEq, Eq)]
pub struct FeedNumbers {
    pub answer: u8,
    pub errors: usize,
    pub walked: u32,
}

impl From<FeedAnswer> for FeedNumbers {
    ghost from_gives = { λ answer numbers. numbers ≡ feed_numbers answer };

    fn from(answer: FeedAnswer) -> FeedNumbers {
        match answer {
            Ok(outcome) => FeedNumbers {
                answer: if outcome.taken { 0 } else { 12 },
                errors: outcome.errors,
                walked: outcome.walked,
            },
            Err(refusal) => FeedNumbers {
                answer: refusal.number(),
                errors: 0,
                walked: 0,
            },
        }
    }
}

#[derive(Clone, Copy, Debug, PartialEq, Eq)]
pub struct QuestionNumbers {
    pub answer: u8,
    pub yes: bool,
}

impl From<QuestionAnswer> for QuestionNumbers {
    ghost from_gives = { λ answer numbers. numbers ≡ question_numbers answer };

    fn from(answer: QuestionAnswer) -> QuestionNumbers {
        match answer {
            Ok(yes) => QuestionNumbers { answer: 0, yes },
            Err(refusal) => QuestionNumbers {
                answer: refusal.number(),
                yes: false,
            },
        }
    }
}

#[derive(Clone, Copy, Debug, PartialEq, Eq)]
pub struct StackNumbers {
    pub answer: u8,
    pub height: u16,
    pub mark: u32,
}

impl From<StackAnswer> for StackNumbers {
    ghost from_gives = { λ answer numbers. numbers ≡ stack_numbers answer };

    fn from(answer: StackAnswer) -> StackNumbers {
        match answer {
            Ok(outcome) => StackNumbers {
                answer: 0,
                height: outcome.height,
                mark: outcome.mark,
            },
            Err(refusal) => StackNumbers {
                answer: refusal.number(),
                height: 0,
                mark: 0,
            },
        }
    }
}
