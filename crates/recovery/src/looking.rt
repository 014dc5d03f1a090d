// The first stage: the readings, first to last, look for a height at which the error class can be shifted.
ghost use Rattle.std.specs.Prelude.{◌≡◌};
ghost use Rattle.meaning.specs.Readings.{held_by};
ghost use Rattle.actions.specs.Acting.{Pops};
ghost use Rattle.recovery.specs.Looking.{others, top_cell, empty_term, longer_term, below_top, HeldReady, OneReady, OneDone, AllReady, AllDone};

use actions::Top;
use cells::Cell;
use meaning::{CellNo, ERROR_CLASS, Refusal, Term};
use state::{State, Work};
use table::Table;
use taking::{SoFar, Turn};

// The readings that still wait: so many, from the reading `next` on.
#[derive(Clone, Copy)]
struct Waiting {
    next: u16,
    count: u16,
}

// The cell of the top entry.
fn top_cell(work: &Work, reading: Top) -> Cell
    requires { Pops work.now reading 0 }
    ensures { result ≡ top_cell work.now reading }
{
    cells::get_cell(work, reading.cell)
}

// The error entry's term where nothing was popped: empty, at the top entry's end.
fn empty_term(work: &Work, reading: Top) -> Term
    requires { Pops work.now reading 0 }
    ensures { result ≡ empty_term work.now reading }
{
    let x = top_cell(work, reading);
    Term {
        class: ERROR_CLASS,
        value: 0,
        start: x.end,
        end: x.end,
    }
}

// Its term after the pop of the top entry: from there on, to the same end.
fn longer_term(work: &Work, reading: Top, term: Term) -> Term
    requires { Pops work.now reading 0 }
    ensures { result ≡ longer_term work.now reading term }
{
    let x = top_cell(work, reading);
    Term {
        class: ERROR_CLASS,
        value: 0,
        start: x.start,
        end: term.end,
    }
}

// What is left of the reading after that pop.
fn below_top(work: &Work, reading: Top) -> Top
    requires { Pops work.now reading 0 }
    ensures { result ≡ below_top work.now reading }
{
    let x = top_cell(work, reading);
    Top {
        cell: x.parent,
        height: reading.height - 1,
        ..reading
    }
}

// Whether a reading that still waits, or a result of recovery, has the entry in this cell.
#[tactic(auto, using(crate::proofs::LookingPops::results_in))]
fn held(state: &State, work: &Work, waiting: Waiting, so: SoFar, cell: CellNo) -> bool
    requires { HeldReady state.now work.now waiting so }
    ensures { result ≡ held_by (others state.now waiting work.now so) cell.0 }
{
    state::held_by_others(
        state,
        waiting.next,
        waiting.count,
        work,
        state::RESULTS_AT,
        0,
        so.counts.results,
        cell,
    )
}

// One reading walks from its top, with the error entry's term for what was popped before.
#[tactic(auto, using(crate::proofs::LookingOne::one_none, crate::proofs::LookingOne::one_held))]
fn recover_one(
    table: &Table,
    state: &State,
    work: &mut Work,
    waiting: Waiting,
    term: Term,
    reading: Top,
    so: SoFar,
) -> Result<SoFar, Refusal>
    requires { OneReady state.now work.old waiting reading so }
    ensures { OneDone table.now state.now work.old waiting term reading so work.new result }
{
    if reading.height == 0 || held(state, work, waiting, so, reading.cell) {
        return Ok(so);
    }
    match taking::take_reading(table, work, state::RESULTS_AT, term, reading, so)? {
        Turn::Took(so) => Ok(so),
        Turn::Left(so) => {
            let longer = longer_term(work, reading, term);
            let below = below_top(work, reading);
            recover_one(table, state, work, waiting, longer, below, so)
        }
    }
}

// The first `count` readings of the state, first to last.
pub fn recover_all(
    table: &Table,
    state: &State,
    work: &mut Work,
    count: u16,
    mut so: SoFar,
) -> Result<SoFar, Refusal>
    requires { AllReady state.now work.old 0 count so }
    ensures { AllDone table.now state.now work.old 0 count so work.new result }
{
    for i in 0..count {
        let reading = taking::top_of(state, state::READINGS_AT, i);
        let term = empty_term(work, reading);
        let waiting = Waiting {
            next: i + 1,
            count: count - i - 1,
        };
        so = recover_one(table, state, work, waiting, term, reading, so)?;
    }
    Ok(so)
}
