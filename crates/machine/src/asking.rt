// The questions on buffers of the right lengths, over the marks' part of the work area. Private: only `Machine` calls them, and it has looked at the lengths.
ghost use Rattle.std.specs.Prelude.{◌≡◌, true};
ghost use Rattle.meaning.specs.Calls.{takes_right};
ghost use Rattle.state.specs.Readings.{readings_of};
ghost use Rattle.questions.specs.Asking.{AsksState};
ghost use Rattle.machine.specs.Lines.{asked_right, asked_on, MarksLine};

use meaning::{QuestionAnswer, Refusal};
use state::State;
use table::Table;

// What is asked: whether a term of this class would be taken, whether the line can end, whether recovery would find a height to go on from.
#[derive(Clone, Copy)]
pub(super) enum Question {
    Takes(u16),
    CanEnd,
    CanRecover,
}

// Consumed is no, before the class is looked at.
#[tactic(auto, using(crate::proofs::Asks::takes_consumed, crate::proofs::Asks::takes_wrong, crate::proofs::Asks::takes_asked))]
fn takes_right(table: &Table, state: &State, class: u16, marks: &mut [u8]) -> QuestionAnswer
    requires { AsksState table.now.counts.states state.now marks.old }
    ensures { result ≡ takes_right table.now class (readings_of state.now) }
{
    if state::reading_count(state) == 0 {
        return Ok(false);
    }
    if checks::wrong_class(table, class) {
        return Err(Refusal::WrongArgument);
    }
    questions::takes(table, state, class, marks)
}

// On a table and a state that were found right.
fn ask_right(table: &Table, state: &State, marks: &mut [u8], question: Question) -> QuestionAnswer
    requires { AsksState table.now.counts.states state.now marks.old }
    ensures { result ≡ asked_right table.now question (readings_of state.now) }
{
    match question {
        Question::Takes(class) => takes_right(table, state, class, marks),
        Question::CanEnd => questions::can_end(table, state, marks),
        Question::CanRecover => questions::can_recover(table, state, marks),
    }
}

pub(super) fn ask(
    table: &[u8],
    state: &State,
    marks: &mut [u8],
    question: Question,
) -> QuestionAnswer
    requires { MarksLine marks.old }
    ensures { result ≡ asked_on table.now state.now question true }
{
    let table = checks::find_table(table, state)?;
    ask_right(&table, state, marks, question)
}
