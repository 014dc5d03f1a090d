// The reading machine: its limits and its calls. Nothing else is for users.
#![tactic(auto)]

ghost use Rattle.std.specs.Prelude.{◌≡◌};
ghost use Rattle.machine.specs.Limits.{limits};
ghost use Rattle.machine.specs.Lines.{asked_on};
ghost use Rattle.promises.specs.Calls.{StartPromise, takes_on, can_end_on, can_recover_on, QuestionPromise, StackPromise, FeedPromise};

use asking::Question;
use meaning::{
    Entry, ErrorRecord, FeedAnswer, QuestionAnswer, Refusal, StackAnswer, StartAnswer, Term,
};
use state::{MARKS_AT, RESULTS_AT, STATE_LENGTH, WORK_LENGTH, Work};

mod asking;
mod starting;

#[derive(Clone, Copy, Debug)]
pub struct Machine {}

// The eight limits, and how long the lent buffers and the lent list of errors are.
#[derive(Clone, Copy, Debug, PartialEq, Eq)]
pub struct Limits {
    pub states: u16,
    pub classes: u16,
    pub nonterminals: u16,
    pub rules: u16,
    pub readings: u16,
    pub height: u16,
    pub chain: usize,
    pub walked: usize,
    pub state_length: usize,
    pub work_length: usize,
    pub errors: usize,
}

impl Machine {
    // The eight limits.
    pub const STATES: u16 = meaning::MAX_STATES;

    pub const CLASSES: u16 = meaning::MAX_CLASSES;

    pub const NONTERMINALS: u16 = meaning::MAX_NONTERMINALS;

    pub const RULES: u16 = meaning::MAX_RULES;

    pub const READINGS: u16 = meaning::MAX_READINGS;

    pub const HEIGHT: u16 = meaning::MAX_HEIGHT;

    pub const CHAIN: usize = meaning::MAX_CHAIN;

    pub const WALKED: usize = meaning::MAX_WALKED;

    // The lengths of the lent buffers, and the places of the lent list of errors.
    pub const STATE_LENGTH: usize = STATE_LENGTH;

    pub const WORK_LENGTH: usize = WORK_LENGTH;

    pub const ERRORS: usize = meaning::MAX_ERRORS;

    // The eleven constants, promised to be those of the definitions.
    pub fn limits() -> Limits
        ensures { result ≡ limits }
    {
        Limits {
            states: Machine::STATES,
            classes: Machine::CLASSES,
            nonterminals: Machine::NONTERMINALS,
            rules: Machine::RULES,
            readings: Machine::READINGS,
            height: Machine::HEIGHT,
            chain: Machine::CHAIN,
            walked: Machine::WALKED,
            state_length: Machine::STATE_LENGTH,
            work_length: Machine::WORK_LENGTH,
            errors: Machine::ERRORS,
        }
    }

    // Makes a state buffer of any content the state of a new line.
    pub fn start(table: &[u8], state: &mut [u8], work: &mut [u8]) -> StartAnswer
        ensures { StartPromise table.now state.old work.old result state.new work.new }
    {
        let state = state.as_mut_array().ok_or(Refusal::WrongLength)?;
        let work: &mut Work = work.as_mut_array().ok_or(Refusal::WrongLength)?;
        let answer = starting::start_line(table, state);
        numbers::clear(work);
        answer
    }

    fn ask(table: &[u8], state: &[u8], work: &mut [u8], question: Question) -> QuestionAnswer
        ensures { QuestionPromise (asked_on table.now state.now question) state.now work.old result work.new }
    {
        let state = state.as_array().ok_or(Refusal::WrongLength)?;
        let work: &mut Work = work.as_mut_array().ok_or(Refusal::WrongLength)?;
        let answer = asking::ask(table, state, &mut work[MARKS_AT..RESULTS_AT], question);
        numbers::clear(work);
        answer
    }

    // Would a term of this class be taken?
    pub fn takes(table: &[u8], state: &[u8], work: &mut [u8], class: u16) -> QuestionAnswer
        ensures { QuestionPromise (takes_on table.now state.now class) state.now work.old result work.new }
    {
        Machine::ask(table, state, work, Question::Takes(class))
    }

    // Can the line end here?
    pub fn can_end(table: &[u8], state: &[u8], work: &mut [u8]) -> QuestionAnswer
        ensures { QuestionPromise (can_end_on table.now state.now) state.now work.old result work.new }
    {
        Machine::ask(table, state, work, Question::CanEnd)
    }

    // Would recovery find a height to go on from?
    pub fn can_recover(table: &[u8], state: &[u8], work: &mut [u8]) -> QuestionAnswer
        ensures { QuestionPromise (can_recover_on table.now state.now) state.now work.old result work.new }
    {
        Machine::ask(table, state, work, Question::CanRecover)
    }

    // Reads the stack of a reading out, top first, into the lent list.
    pub fn stack(table: &[u8], state: &[u8], number: u16, entries: &mut [Entry]) -> StackAnswer
        ensures { StackPromise table.now state.now number entries.old result entries.new }
    {
        let read = by_value::reading::stack_of(table, state, number, entries.len());
        lists::fill(entries, &read.entries);
        read.answer
    }

    // Feeds one term; the error records go into the lent list.
    pub fn feed(
        table: &[u8],
        state: &mut [u8],
        work: &mut [u8],
        term: Term,
        errors: &mut [ErrorRecord],
    ) -> FeedAnswer
        ensures { FeedPromise table.now state.old work.old term errors.old result state.new work.new errors.new }
    {
        let run = by_value::running::feed_of(table, state, work, term, errors.len());
        lists::fill(errors, &run.errors);
        run.answer
    }
}
