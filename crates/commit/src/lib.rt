// The end of a feed: the results' stacks move from the work area's pool to the state's, bottom first, and become the state's readings.
#![tactic(auto)]

ghost use Rattle.std.specs.Prelude.{◌≡◌, ◌+◌, ◌<◌, ◌≤◌};
ghost use Rattle.state.specs.Layout.{state_cells, work_cells};
ghost use Rattle.commit.specs.Moving.{moved_to, where_gone, put_moved, forgotten, move, move_step, move_stack, CellReady, MoveReady};
ghost use Rattle.commit.specs.Committing.{commit_one, OneReady, Results, Commits};

use cells::Cell;
use meaning::CellNo;
use state::{Slot, State, Work};

// Where a stack has gone: its top's new cell, and the next cell that is free.
#[derive(Clone, Copy)]
struct Moved {
    no: CellNo,
    next: u16,
}

// Where a cell has gone. The map has k + 1 for the cell k, 0 for nowhere yet.
#[tactic(auto, unfolding(crate::specs::Moving::moved_to, crate::specs::Moving::where_gone))]
fn moved_to(work: &Work, c: CellNo) -> Option<CellNo>
    requires { c.0 < work_cells }
    ensures { result ≡ where_gone (moved_to work.now c.0) }
{
    match numbers::get16(work, state::MAP_AT + 2 * usize::from(c.0)) {
        0 => None,
        to => Some(CellNo(to - 1)),
    }
}

#[tactic(auto, unfolding(crate::specs::Moving::put_moved))]
fn put_moved(work: &mut Work, c: CellNo, to: CellNo)
    requires { (c.0 < work_cells) × (to.0 < state_cells) }
    ensures { work.new ≡ put_moved work.old c.0 (to.0 + 1) }
{
    numbers::put16(work, state::MAP_AT + 2 * usize::from(c.0), to.0 + 1);
}

// No cell below `cells` has gone anywhere.
#[tactic(auto, using(crate::proofs::Map::forgets))]
fn forget_moves(work: &mut Work, cells: u16)
    requires { cells ≤ work_cells }
    ensures { work.new ≡ forgotten work.old cells }
{
    let start = state::MAP_AT;
    let end = start + 2 * usize::from(cells);
    numbers::clear(&mut work[start..end]);
}

// The stack below has moved, to `under`; now the cell c, which holds x. A cell moves once, so what was shared stays shared.
#[tactic(auto, using(crate::proofs::Steps::step_old, crate::proofs::Steps::step_new), unfolding(crate::specs::Moving::with_parent))]
fn move_cell(work: &mut Work, state: &mut State, x: Cell, c: CellNo, under: Moved) -> Moved
    requires { CellReady work.old state.old c.0 under.next }
    ensures { move work.new state.new result.next result.no.0 ≡ move_step x c.0 (move work.old state.old under.next under.no.0) }
{
    if let Some(no) = moved_to(work, c) {
        return Moved { no, ..under };
    }
    let no = CellNo(under.next);
    let copy = Cell {
        parent: under.no,
        ..x
    };
    cells::put_cell(state, no, copy);
    put_moved(work, c, no);
    Moved {
        no,
        next: under.next + 1,
    }
}

// The stack of this height at this top, to cells from `next` on.
#[tactic(auto, using(crate::proofs::Steps::move_none, crate::proofs::Steps::move_more))]
fn move_stack(work: &mut Work, state: &mut State, height: u16, top: CellNo, next: u16) -> Moved
    requires { MoveReady work.old state.old height top.0 next }
    ensures { move work.new state.new result.next result.no.0 ≡ move_stack height work.old state.old next top.0 }
{
    if height == 0 {
        return Moved {
            no: CellNo(0),
            next,
        };
    }
    let x = cells::get_cell(work, top);
    let under = move_stack(work, state, height - 1, x.parent, next);
    move_cell(work, state, x, top, under)
}

// The result i becomes the reading i.
#[tactic(auto, using(crate::proofs::Results::one_move))]
fn commit_one(work: &mut Work, state: &mut State, at: usize, i: u16, next: u16) -> u16
    requires { OneReady work.old state.old at i next }
    ensures { move work.new state.new result 0 ≡ commit_one at work.old state.old i next }
{
    let slot = state::get_slot(work, at, i);
    let x = cells::get_cell(work, slot.top);
    let moved = move_stack(work, state, x.height, slot.top, next);
    let reading = Slot {
        top: moved.no,
        ..slot
    };
    state::put_slot(state, state::READINGS_AT, i, reading);
    moved.next
}

// The results of the list at `at`, over the pool's cells below `cells`, become the state's readings.
pub fn commit(work: &mut Work, state: &mut State, at: usize, count: u16, cells: u16)
    requires { Results work.old state.old at count cells }
    ensures { Commits work.old state.old at count cells work.new state.new }
{
    forget_moves(work, cells);
    let mut used = 0;
    for i in 0..count {
        used = commit_one(work, state, at, i, used);
    }
    numbers::put16(state, state::COUNT_AT, count);
    numbers::put16(state, state::USED_AT, used);
}
