// A term is fed: what the trace says of it.
ghost use Rattle.std.specs.Prelude.{◌≡◌, ltb};
ghost use Rattle.console.specs.Tracing.{readings_left, TracedIs};

use super::{State, Work};
use by_value::{reading, running};
use machine::Machine;
use meaning::{FeedNumbers, HEIGHTS, Term};

// The answer's numbers, and how many readings the term left.
#[derive(Clone, Copy)]
pub struct Traced {
    pub numbers: FeedNumbers,
    pub readings: u16,
}

#[tactic(auto, using(crate::proofs::Tracing::reading_there))]
fn has_reading(table: &[u8], state: &State, i: u16) -> bool
    ensures { result ≡ ltb i (readings_left table.now state.now) }
{
    let read = reading::stack_of(table, state, i, HEIGHTS);
    read.answer.is_ok()
}

// How many readings are left: the first number that none has.
#[tactic(auto, using(crate::proofs::Tracing::counted_all, crate::proofs::Tracing::counted_on, crate::proofs::Tracing::counted_16))]
fn readings_left(table: &[u8], state: &State) -> u16
    ensures { result ≡ readings_left table.now state.now }
{
    for i in 0..Machine::READINGS {
        if !has_reading(table, state, i) {
            return i;
        }
    }
    Machine::READINGS
}

pub fn feed_term(table: &[u8], state: &mut State, work: &mut Work, term: Term) -> Traced
    ensures { TracedIs table.now state.old work.old term result state.new work.new }
{
    let run = running::feed_of(table, state, work, term, Machine::ERRORS);
    Traced {
        numbers: FeedNumbers::from(run.answer),
        readings: readings_left(table, state),
    }
}
