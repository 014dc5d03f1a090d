// What is wrong with a table file: the first rule that it breaks, in the order of its bytes, and where.
#![tactic(auto)]

ghost use Rattle.std.specs.Prelude.{◌≡◌};
ghost use Rattle.meaning.specs.TableFile.{view_of};
ghost use Rattle.faults.specs.Verdicts.{tested, no_start};
ghost use Rattle.faults.specs.Diagnosis.{faults_over, Diagnosed};

use std::fmt;
use table::actions::Actions;
use table::gotos::Gotos;

mod frame;
mod records;
mod rules;

// The rules of a table file, by what breaks them.
#[derive(Clone, Copy, Debug, PartialEq, Eq)]
pub enum Fault {
    TooLong,
    WrongTag,
    WrongLength,
    FewStates,
    ManyStates,
    FewClasses,
    ManyClasses,
    FewNonterminals,
    ManyNonterminals,
    ManyRules,
    WrongFlag,
    WrongEnd,
    UnknownLeftSide,
    ManyItems,
    UnknownKind,
    PickNotZero,
    PickNoItem,
    LowNotZero,
    HighNotZero,
    LowAboveHigh,
    PastField,
    UnknownState,
    UnknownClass,
    UnknownNonterminal,
    UnknownTarget,
    UnknownRule,
    ManyReductions,
    NoAction,
    NotAscending,
    NoStart,
}

impl fmt::Display for Fault {
    fn fmt<W: fmt::Write>(&self, f: &mut fmt::Formatter<W>) -> fmt::Result {
        f.write_str(match self {
            Fault::TooLong => "more than 65536 bytes",
            Fault::WrongTag => "not the tag of this field",
            Fault::WrongLength => "not the length of this field",
            Fault::FewStates => "no states",
            Fault::ManyStates => "more than 512 states",
            Fault::FewClasses => "fewer than 4 classes",
            Fault::ManyClasses => "more than 64 classes",
            Fault::FewNonterminals => "no nonterminals",
            Fault::ManyNonterminals => "more than 64 nonterminals",
            Fault::ManyRules => "more than 256 rules",
            Fault::WrongFlag => "neither 0 nor 1",
            Fault::WrongEnd => "the file does not end here",
            Fault::UnknownLeftSide => "a left side that is no nonterminal",
            Fault::ManyItems => "more than 15 items",
            Fault::UnknownKind => "a kind above 3",
            Fault::PickNotZero => "a pick that is not 0 in a Zero",
            Fault::PickNoItem => "a pick that is none of the items",
            Fault::LowNotZero => "a low that is not 0",
            Fault::HighNotZero => "a high that is not 0",
            Fault::LowAboveHigh => "a low above the high",
            Fault::PastField => "the record goes past the field",
            Fault::UnknownState => "a state that is not below the count",
            Fault::UnknownClass => "a class that is not below the count",
            Fault::UnknownNonterminal => "a nonterminal that is not below the count",
            Fault::UnknownTarget => "a target that is no state",
            Fault::UnknownRule => "a rule that is not below the count",
            Fault::ManyReductions => "more than 4 rules",
            Fault::NoAction => "neither a shift nor a rule",
            Fault::NotAscending => "not above the record before it",
            Fault::NoStart => "no shift of state 0 on class 2",
        })
    }
}

// The rule that is broken: in a field (0 is the file), in which record of it if it is one's, at a byte of the file.
#[derive(Clone, Copy, Debug, PartialEq, Eq)]
pub struct Broken {
    pub fault: Fault,
    pub field: u8,
    pub record: Option<usize>,
    pub byte: usize,
}

// Of what a rule is tested: a field (0 is the file), and which record of it if it is one's.
#[derive(Clone, Copy)]
struct Place {
    field: u8,
    record: Option<usize>,
}

// The file; `Place { field, ..FILE }` is a whole field.
const FILE: Place = Place {
    field: 0,
    record: None,
};

impl Place {
    // A test of one rule.
    fn test(self, right: bool, fault: Fault, byte: usize) -> Result<(), Broken>
        ensures { result ≡ tested right fault self byte }
    {
        if right {
            return Ok(());
        }
        let Place { field, record } = self;
        Err(Broken {
            fault,
            field,
            record,
            byte,
        })
    }
}

// What the bytes of a wrong table break: the frame, else a record, else that state 0 shifts at class 2.
fn first_broken(table: &[u8]) -> Result<(), Broken>
    ensures { result ≡ faults_over table.now (view_of table.now) (no_start (view_of table.now)) }
{
    let view = table::frame::view_of(table);
    frame::frame_fault(table, view)?;
    rules::rules_fault(table, view.counts, view.rules.at)?;
    records::records_fault::<Actions>(table, view.counts, view.actions)?;
    records::records_fault::<Gotos>(table, view.counts, view.gotos)?;
    Err(Broken {
        fault: Fault::NoStart,
        field: 3,
        record: None,
        byte: view.actions.at,
    })
}

// The diagnosis of any bytes: a rule is named exactly if the machine's check finds the table wrong.
pub fn diagnose(table: &[u8]) -> Result<(), Broken>
    ensures { Diagnosed table.now result }
{
    match table::check_table(table) {
        Some(_) => Ok(()),
        None => first_broken(table),
    }
}
