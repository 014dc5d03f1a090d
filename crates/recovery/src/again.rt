// The second stage: the recovered readings take the term, or stay with a longer error entry.
ghost use Rattle.std.specs.Prelude.{◌≡◌, ◌+◌, ◌*◌, ◌≤◌, length};
ghost use Rattle.cells.specs.Pool.{cell_size, cell_at};
ghost use Rattle.state.specs.Layout.{left_at};
ghost use Rattle.taking.specs.Taking.{TakeReady};
ghost use Rattle.recovery.specs.Again.{AgainReady, AgainDone, TurnDone, longer_cell, StayReady, StayDone};

use actions::{Counts, Top};
use cells::Cell;
use meaning::{MAX_CHAINS, Refusal, Term};
use state::{Slot, Work};
use table::Table;
use taking::{SoFar, Turn};

// The error entry's cell, its span to the term's end.
#[tactic(auto, unfolding(crate::specs::Again::longer_cell))]
fn longer_cell(work: &Work, reading: Top, end: u32) -> Cell
    requires { cell_size * reading.cell.0 + cell_size ≤ length work.now }
    ensures { result ≡ longer_cell (cell_at work.now reading.cell.0) end }
{
    let x = cells::get_cell(work, reading.cell);
    Cell { end, ..x }
}

// A reading that cannot be planned stays: cells never change, so its longer entry is born, and counts as a chain.
fn stay(work: &mut Work, reading: Top, end: u32, so: SoFar) -> SoFar
    requires { StayReady work.old reading so }
    ensures { StayDone end work.old reading so work.new result }
{
    let longer = longer_cell(work, reading, end);
    let counts = so.counts;
    let top = cells::birth(work, counts.cells, longer);
    let slot = Slot {
        top,
        mark: reading.mark,
    };
    state::put_slot(work, state::LEFT_AT, counts.results, slot);
    SoFar {
        counts: Counts {
            cells: counts.cells + 1,
            results: counts.results + 1,
            ..counts
        },
        chains: so.chains + 1,
        ..so
    }
}

// One reading takes the term, or stays.
fn take_or_stay(
    table: &Table,
    work: &mut Work,
    term: Term,
    reading: Top,
    so: SoFar,
) -> Result<SoFar, Refusal>
    requires { TakeReady work.old left_at reading so }
    ensures { TurnDone table.now term work.old reading so work.new result }
{
    match taking::take_reading(table, work, state::LEFT_AT, term, reading, so)? {
        Turn::Took(so) => Ok(so),
        Turn::Left(so) => {
            if so.chains >= MAX_CHAINS {
                return Err(Refusal::TooManyReadings);
            }
            Ok(stay(work, reading, term.end, so))
        }
    }
}

// The first `count` of the recovered readings, last to first.
pub fn take_all(
    table: &Table,
    work: &mut Work,
    term: Term,
    count: u16,
    mut so: SoFar,
) -> Result<SoFar, Refusal>
    requires { AgainReady work.old count so }
    ensures { AgainDone table.now term work.old count so work.new result }
{
    for i in (0..count).rev() {
        let reading = taking::top_of(work, state::RESULTS_AT, i);
        so = take_or_stay(table, work, term, reading, so)?;
    }
    Ok(so)
}
