// The core of the three questions, over a checked table and a checked state: takes this class, can end, can recover.
#![tactic(auto)]

ghost use Rattle.std.specs.Prelude.{◌≡◌};
ghost use Rattle.meaning.specs.Questions.{takes, can_end, can_recover};
ghost use Rattle.state.specs.Readings.{readings_of};
ghost use Rattle.questions.specs.Asking.{asked_reading, asked_of, AsksReading, AsksState};

use meaning::{END_CLASS, QuestionAnswer};
use state::State;
use table::Table;

// What is asked of each stack.
#[derive(Clone, Copy)]
enum Question {
    Takes(u16),
    Recovers,
}

// The answer of the reading i.
fn ask_reading(
    table: &Table,
    state: &State,
    question: Question,
    i: u16,
    marks: &mut [u8],
) -> QuestionAnswer
    requires { AsksReading state.now i marks.old }
    ensures { result ≡ asked_reading table.now question state.now i }
{
    let top = state::get_slot(state, state::READINGS_AT, i).top;
    let height = cells::get_cell(state, top).height;
    match question {
        Question::Takes(class) => chains::can_plan_stack(table, state, height, top, class, marks),
        Question::Recovers => chains::recovers_stack(table, state, height, top, marks),
    }
}

// The readings of the state, first to last: the first yes or the first refusal decides.
#[tactic(auto, using(crate::proofs::Answering::asked_none, crate::proofs::Answering::asked_step, state::proofs::Valid::waiting_list))]
fn ask(table: &Table, state: &State, question: Question, marks: &mut [u8]) -> QuestionAnswer
    requires { AsksState table.now.counts.states state.now marks.old }
    ensures { result ≡ asked_of table.now question (readings_of state.now) }
{
    for i in 0..state::reading_count(state) {
        if ask_reading(table, state, question, i, marks)? {
            return Ok(true);
        }
    }
    Ok(false)
}

// Takes this class?
#[tactic(auto, unfolding(crate::specs::Asking::asked_of))]
pub fn takes(table: &Table, state: &State, class: u16, marks: &mut [u8]) -> QuestionAnswer
    requires { AsksState table.now.counts.states state.now marks.old }
    ensures { result ≡ takes table.now class (readings_of state.now) }
{
    ask(table, state, Question::Takes(class), marks)
}

// Can end?
#[tactic(auto, unfolding(meaning::specs::Questions::can_end))]
pub fn can_end(table: &Table, state: &State, marks: &mut [u8]) -> QuestionAnswer
    requires { AsksState table.now.counts.states state.now marks.old }
    ensures { result ≡ can_end table.now (readings_of state.now) }
{
    takes(table, state, END_CLASS, marks)
}

// Can recover?
#[tactic(auto, unfolding(meaning::specs::Questions::can_recover, crate::specs::Asking::asked_of))]
pub fn can_recover(table: &Table, state: &State, marks: &mut [u8]) -> QuestionAnswer
    requires { AsksState table.now.counts.states state.now marks.old }
    ensures { result ≡ can_recover table.now (readings_of state.now) }
{
    if table.recovers() {
        return ask(table, state, Question::Recovers, marks);
    }
    Ok(false)
}
