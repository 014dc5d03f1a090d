// Feeding, the first planning: one pass over the readings, last to first, in which each takes the term or is left; and what it comes to.
#![tactic(auto)]

ghost use Rattle.std.specs.Prelude.{◌≡◌, ◌+◌, ◌*◌, ◌≤◌, length};
ghost use Rattle.meaning.specs.Feeding.{some_took, none_took, first};
ghost use Rattle.state.specs.Layout.{results_at, left_at, slot_size};
ghost use Rattle.state.specs.Readings.{put_slot, used_of, readings_of, results_of};
ghost use Rattle.taking.specs.Stages.{made_of};
ghost use Rattle.feeding.specs.Ending.{Holds, EndReady, SettledIs, FirstReady, pass_over, FirstIs};
ghost use Rattle.feeding.specs.Passing.{PassIs};

use actions::{Counts, Top};
use meaning::{Refusal, Term};
use state::{Slot, State, Work};
use table::Table;
use taking::{SoFar, Turn};
use unplanned::Order;

pub mod unplanned;

// A feed that ended with 0 or 12: the list of the readings that remain, with the counts of cells, readings and error records, and the reductions walked.
#[derive(Clone, Copy)]
pub struct Ended {
    pub taken: bool,
    pub list: usize,
    pub counts: Counts,
    pub walked: usize,
}

// What the first planning comes to, if it is not refused.
#[derive(Clone, Copy)]
pub enum First {
    Ended(Ended),
    Recovers { walked: usize, left: u16 },
}

// What the pass comes to, if it is not refused: how far the stage is and how many readings were left.
#[derive(Clone, Copy)]
struct Passed {
    so: SoFar,
    left: u16,
}

// A reading that could not be planned goes behind those left before it.
fn put_left(work: &mut Work, left: u16, reading: Top)
    requires { left_at + slot_size * left + slot_size ≤ length work.old }
    ensures { work.new ≡ put_slot work.old left_at left (record { top = reading.cell; mark = reading.mark }) }
{
    let slot = Slot {
        top: reading.cell,
        mark: reading.mark,
    };
    state::put_slot(work, state::LEFT_AT, left, slot);
}

// The pass over a state whose cells in use were loaded.
fn pass_over(table: &Table, state: &State, work: &mut Work, term: Term) -> Result<Passed, Refusal>
    requires { FirstReady state.now work.old }
    ensures { PassIs state.now (pass_over table.now term state.now) work.new result }
{
    let mut so = SoFar {
        counts: Counts {
            cells: state::cells_in_use(state),
            results: 0,
            errors: 0,
        },
        walked: 0,
        chains: 0,
    };
    let mut left = 0;
    for i in (0..state::reading_count(state)).rev() {
        let reading = taking::top_of(state, state::READINGS_AT, i);
        let turn = taking::take_reading(table, work, state::RESULTS_AT, term, reading, so)?;
        match turn {
            Turn::Took(on) => so = on,
            Turn::Left(on) => {
                put_left(work, left, reading);
                so = on;
                left += 1;
            }
        }
    }
    Ok(Passed { so, left })
}

// Some chain succeeded: the readings left get an error record each, first to last.
fn some_took(work: &mut Work, so: SoFar, left: u16) -> Ended
    requires { EndReady work.old so left }
    ensures { Holds work.new result (some_took (results_of work.old left_at left) so.walked (made_of results_at work.old so.counts)) }
{
    let errors = unplanned::put_all(work, Order::LastToFirst, 0, left, so.counts.errors);
    Ended {
        taken: true,
        list: state::RESULTS_AT,
        counts: Counts {
            errors,
            ..so.counts
        },
        walked: so.walked,
    }
}

// None did: the readings left stay, in reversed order, and get an error record each, last to first.
fn none_took(work: &mut Work, so: SoFar, left: u16) -> Ended
    requires { EndReady work.old so left }
    ensures { Holds work.new result (none_took (results_of work.old left_at left) so.walked (made_of results_at work.old so.counts)) }
{
    let errors = unplanned::put_all(work, Order::FirstToLast, 0, left, so.counts.errors);
    Ended {
        taken: false,
        list: state::LEFT_AT,
        counts: Counts {
            results: left,
            errors,
            ..so.counts
        },
        walked: so.walked,
    }
}

// What a pass comes to.
fn settle(work: &mut Work, recovers: bool, so: SoFar, left: u16) -> First
    requires { EndReady work.old so left }
    ensures { SettledIs recovers work.old so left work.new result }
{
    if so.counts.results != 0 {
        return First::Ended(some_took(work, so, left));
    }
    if recovers && so.chains == 0 {
        return First::Recovers {
            walked: so.walked,
            left,
        };
    }
    First::Ended(none_took(work, so, left))
}

// The first planning of a feed.
pub fn first_planning(
    table: &Table,
    state: &State,
    work: &mut Work,
    term: Term,
) -> Result<First, Refusal>
    requires { FirstReady state.now work.old }
    ensures { FirstIs (first table.now term (readings_of state.now) (used_of state.now)) state.now work.new result }
{
    let Passed { so, left } = pass_over(table, state, work, term)?;
    Ok(settle(work, table.recovers(), so, left))
}
