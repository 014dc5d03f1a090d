// One reading takes a term: it is planned and, if a chain ends, applied at once.
#![tactic(auto)]

ghost use Rattle.std.specs.Prelude.{◌≡◌};
ghost use Rattle.state.specs.Readings.{ListIn};
ghost use Rattle.taking.specs.Taking.{top_of, TakeReady, TakingIs};

use actions::{Counts, Top};
use meaning::{MAX_CHAINS, Refusal, Term};
use state::Work;
use table::Table;

// How far a stage of a feed is: cells, results and error records, the reductions walked, the chains ended in this stage.
#[derive(Clone, Copy)]
pub struct SoFar {
    pub counts: Counts,
    pub walked: usize,
    pub chains: usize,
}

// What a reading comes to that was not refused: it takes the term, or is left, since it cannot be planned.
#[derive(Clone, Copy)]
pub enum Turn {
    Took(SoFar),
    Left(SoFar),
}

// The reading i of the list that begins at `at`.
#[tactic(auto, using(crate::proofs::Ways::top_cell_lem))]
pub fn top_of(buffer: &[u8], at: usize, i: u16) -> Top
    requires { ListIn buffer.now at i 1 }
    ensures { result ≡ top_of buffer.now at i }
{
    let slot = state::get_slot(buffer, at, i);
    let x = cells::get_cell(buffer, slot.top);
    Top {
        cell: slot.top,
        height: x.height,
        mark: slot.mark,
    }
}

// The reading takes the term: its results go to the list that begins at `list`.
pub fn take_reading(
    table: &Table,
    work: &mut Work,
    list: usize,
    term: Term,
    reading: Top,
    so: SoFar,
) -> Result<Turn, Refusal>
    requires { TakeReady work.old list reading so }
    ensures { TakingIs table.now term list work.old reading so work.new result }
{
    let planned = applying::plan_reading(table, work, MAX_CHAINS, term.class, reading, so.chains)?;
    let turned = SoFar {
        walked: so.walked + planned.walked,
        chains: planned.chains,
        ..so
    };
    if planned.chains == so.chains {
        return Ok(Turn::Left(turned));
    }
    let counts = applying::apply_reading(table, work, list, term, reading, so.counts);
    Ok(Turn::Took(SoFar { counts, ..turned }))
}
