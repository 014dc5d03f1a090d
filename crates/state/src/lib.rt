// The state buffer and the work area: where things stand in them, the check of any bytes, the readings of a state, start and load.
#![tactic(auto)]

ghost use Rattle.std.specs.Prelude.{◌≡◌, ◌++◌, ◌+◌, ◌*◌, ◌<◌, ◌≤◌, length};
ghost use Rattle.meaning.specs.Readings.{held_by};
ghost use Rattle.state.specs.Layout.{state_cells, readings_at, slot_size};
ghost use Rattle.state.specs.Readings.{count_of, used_of, slot_at, put_slot, readings_from, ListIn};
ghost use Rattle.state.specs.Check.{slots_right, valid_state, SlotsReady};
ghost use Rattle.state.specs.Areas.{loaded, Started};

use cells::Cell;
use meaning::{CellNo, MAX_READINGS, StateNo};

mod check;

// The state buffer: cells, reading slots, the number of readings, the number of cells in use.
pub const STATE_CELLS: u16 = 1024;

pub const READINGS_AT: usize = 18432;

pub const SLOT_SIZE: usize = 6;

pub const COUNT_AT: usize = 18528;

pub const USED_AT: usize = 18530;

pub const STATE_LENGTH: usize = 18532;

// The work area: cells, the planner's marks, two lists of readings, the error records, where the commit moved each cell.
pub const WORK_CELLS: u16 = 2096;

pub const MARKS_AT: usize = 37728;

pub const RESULTS_AT: usize = 41824;

pub const LEFT_AT: usize = 41920;

pub const ERRORS_AT: usize = 42016;

pub const MAP_AT: usize = 42272;

pub const WORK_LENGTH: usize = 46464;

// The two buffers: their lengths stand in their types.
pub type State = [u8; STATE_LENGTH];

pub type Work = [u8; WORK_LENGTH];

// A reading as a list has it: its top cell and its mark.
#[derive(Clone, Copy)]
pub struct Slot {
    pub top: CellNo,
    pub mark: u32,
}

// The slot i of the list that begins at `at`.
#[tactic(auto, unfolding(crate::specs::Readings::slot_at))]
pub fn get_slot(buffer: &[u8], at: usize, i: u16) -> Slot
    requires { at + slot_size * i + slot_size ≤ length buffer.now }
    ensures { result ≡ slot_at buffer.now at i }
{
    let p = at + SLOT_SIZE * usize::from(i);
    Slot {
        top: CellNo(numbers::get16(buffer, p)),
        mark: numbers::get32(buffer, p + 2),
    }
}

// Writes the slot i of the list that begins at `at`, and no other byte.
#[tactic(auto, unfolding(crate::specs::Readings::put_slot))]
pub fn put_slot(buffer: &mut [u8], at: usize, i: u16, x: Slot)
    requires { at + slot_size * i + slot_size ≤ length buffer.old }
    ensures { buffer.new ≡ put_slot buffer.old at i x }
{
    let p = at + SLOT_SIZE * usize::from(i);
    numbers::put16(buffer, p, x.top.0);
    numbers::put32(buffer, p + 2, x.mark);
}

// How many readings a state has; none: it is consumed.
pub fn reading_count(state: &State) -> u16
    ensures { result ≡ count_of state.now }
{
    numbers::get16(state, COUNT_AT)
}

// How many cells of a state are in use: those with lower numbers.
pub fn cells_in_use(state: &State) -> u16
    ensures { result ≡ used_of state.now }
{
    numbers::get16(state, USED_AT)
}

// Whether the readings of a list stand, over cells below `cells`, with states below `states`.
#[tactic(auto, using(crate::proofs::Checking::slots_ways))]
pub fn list_right(buffer: &[u8], cells: u16, states: u16, at: usize, count: u16) -> bool
    requires { SlotsReady buffer.now cells at 0 count }
    ensures { result ≡ slots_right cells states buffer.now at 0 count }
{
    for i in 0..count {
        if !check::slot_right(buffer, cells, states, at, i) {
            return false;
        }
    }
    true
}

// Whether the bytes, which may be any, are a state of a table of so many states.
#[tactic(auto, using(crate::proofs::Checking::valid_ways))]
pub fn valid_state(state: &State, states: u16) -> bool
    ensures { result ≡ valid_state states state.now }
{
    let count = reading_count(state);
    if count > MAX_READINGS {
        return false;
    }
    let used = cells_in_use(state);
    if used > STATE_CELLS {
        return false;
    }
    list_right(state, used, states, READINGS_AT, count)
}

// Whether one of `count` readings of a list, from the reading i on, holds the cell c.
#[tactic(auto, using(crate::proofs::Holding::held_ways))]
pub fn held_by(buffer: &[u8], at: usize, i: u16, count: u16, c: CellNo) -> bool
    requires { ListIn buffer.now at i count }
    ensures { result ≡ held_by (readings_from buffer.now at i count) c.0 }
{
    for k in i..i + count {
        let slot = get_slot(buffer, at, k);
        let x = cells::get_cell(buffer, slot.top);
        if cells::holds_cell(buffer, x.height, slot.top, c) {
            return true;
        }
    }
    false
}

// Whether the cell c is held by a reading of the state that still waits, from the reading i on, or by a result, from the result j on.
#[tactic(auto, using(crate::proofs::Holding::others_ways))]
pub fn held_by_others(
    state: &[u8],
    i: u16,
    waiting: u16,
    work: &[u8],
    at: usize,
    j: u16,
    results: u16,
    c: CellNo,
) -> bool
    requires { ListIn state.now readings_at i waiting × ListIn work.now at j results }
    ensures { result ≡ held_by (readings_from state.now readings_at i waiting ++ readings_from work.now at j results) c.0 }
{
    held_by(state, READINGS_AT, i, waiting, c) || held_by(work, at, j, results, c)
}

// The cells in use go to the same numbers of the work area's pool; its other bytes are kept.
#[tactic(auto, using(crate::proofs::Loading::load_more, crate::proofs::Loading::load_done))]
pub fn load(state: &State, work: &mut Work)
    requires { used_of state.now ≤ state_cells }
    ensures { work.new ≡ loaded state.now work.old }
{
    let end = cells::CELL_SIZE * usize::from(cells_in_use(state));
    for i in 0..end {
        work[i] = state[i];
    }
}

// One reading, one entry with this state: the state of a new line.
pub fn start_state(state: &mut State, start: StateNo)
    ensures { Started start state.old state.new }
{
    cells::put_cell(
        state,
        CellNo(0),
        Cell {
            parent: CellNo(0),
            height: 1,
            state: start,
            value: 0,
            start: 0,
            end: 0,
        },
    );
    put_slot(
        state,
        READINGS_AT,
        0,
        Slot {
            top: CellNo(0),
            mark: 0,
        },
    );
    numbers::put16(state, COUNT_AT, 1);
    numbers::put16(state, USED_AT, 1);
}
