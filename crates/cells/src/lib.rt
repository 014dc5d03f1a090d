// One-entry cells in a lent pool, and stacks of them: a stack is read by recursion on its falling height, through parent cells.
#![tactic(auto)]

ghost use Rattle.std.specs.Prelude.{◌≡◌, reverse, ◌+◌, ◌*◌, ◌<◌, ◌≤◌, length};
ghost use Rattle.meaning.specs.Calls.{written};
ghost use Rattle.meaning.specs.Limits.{max_height};
ghost use Rattle.meaning.specs.Readings.{holds, seen, states};
ghost use Rattle.cells.specs.Pool.{cell_size, cell_at, put_cell};
ghost use Rattle.cells.specs.Stacks.{entry_at, entries_of, down_from, linked, StackIn};

use meaning::{CellNo, Entry, HEIGHTS, StateNo};

// Bytes of a cell: parent 2, height 2, state 2, value 4, start 4, end 4.
pub const CELL_SIZE: usize = 18;

// An entry, the cell under it, and the height of the stack that it is the top of.
#[derive(Clone, Copy)]
pub struct Cell {
    pub parent: CellNo,
    pub height: u16,
    pub state: StateNo,
    pub value: u32,
    pub start: u32,
    pub end: u32,
}

// The cell c.
#[tactic(auto, unfolding(crate::specs::Pool::cell_at))]
pub fn get_cell(pool: &[u8], c: CellNo) -> Cell
    requires { cell_size * c.0 + cell_size ≤ length pool.now }
    ensures { result ≡ cell_at pool.now c.0 }
{
    let at = CELL_SIZE * usize::from(c.0);
    Cell {
        parent: CellNo(numbers::get16(pool, at)),
        height: numbers::get16(pool, at + 2),
        state: StateNo(numbers::get16(pool, at + 4)),
        value: numbers::get32(pool, at + 6),
        start: numbers::get32(pool, at + 10),
        end: numbers::get32(pool, at + 14),
    }
}

// Writes the cell c, and no other byte.
#[tactic(auto, unfolding(crate::specs::Pool::put_cell))]
pub fn put_cell(pool: &mut [u8], c: CellNo, x: Cell)
    requires { cell_size * c.0 + cell_size ≤ length pool.old }
    ensures { pool.new ≡ put_cell pool.old c.0 x }
{
    let at = CELL_SIZE * usize::from(c.0);
    numbers::put16(pool, at, x.parent.0);
    numbers::put16(pool, at + 2, x.height);
    numbers::put16(pool, at + 4, x.state.0);
    numbers::put32(pool, at + 6, x.value);
    numbers::put32(pool, at + 10, x.start);
    numbers::put32(pool, at + 14, x.end);
}

// A cell is born: the number n, which no stack has yet, is its own.
pub fn birth(pool: &mut [u8], n: u16, x: Cell) -> CellNo
    requires { cell_size * n + cell_size ≤ length pool.old }
    ensures { (result.0 ≡ n) × (pool.new ≡ put_cell pool.old n x) }
{
    put_cell(pool, CellNo(n), x);
    CellNo(n)
}

// What is seen of the entry in the cell c.
pub fn entry_at(pool: &[u8], c: CellNo) -> Entry
    requires { cell_size * c.0 + cell_size ≤ length pool.now }
    ensures { result ≡ seen (entry_at (cell_at pool.now) c.0) }
{
    let x = get_cell(pool, c);
    Entry {
        state: x.state,
        value: x.value,
        start: x.start,
        end: x.end,
    }
}

// Whether the bytes have a stack of this height at this top: cells below `cells`, states below `states`.
#[tactic(auto, using(crate::proofs::Stacks::linked_ways))]
pub fn linked_from(pool: &[u8], cells: u16, states: u16, height: u16, top: CellNo) -> bool
    requires { cell_size * cells ≤ length pool.now }
    ensures { result ≡ linked cells states (cell_at pool.now) height top.0 }
{
    if height == 0 {
        return true;
    }
    if top.0 >= cells {
        return false;
    }
    let x = get_cell(pool, top);
    if x.height != height {
        return false;
    }
    if x.state.0 >= states {
        return false;
    }
    linked_from(pool, cells, states, height - 1, x.parent)
}

// The cell k below the top: what is the top after k pops.
#[tactic(auto, using(crate::proofs::Stacks::down_ways))]
pub fn down(pool: &[u8], height: u16, top: CellNo, k: u16) -> CellNo
    requires { (k < height) × StackIn pool.now height top.0 }
    ensures { result.0 ≡ down_from (cell_at pool.now) k top.0 }
{
    if k == 0 {
        return top;
    }
    let x = get_cell(pool, top);
    down(pool, height - 1, x.parent, k - 1)
}

// Whether a stack holds the cell c.
#[tactic(auto, using(crate::proofs::Stacks::holds_ways))]
pub fn holds_cell(pool: &[u8], height: u16, top: CellNo, c: CellNo) -> bool
    requires { StackIn pool.now height top.0 }
    ensures { result ≡ holds (entries_of (cell_at pool.now) height top.0) c.0 }
{
    if height == 0 {
        return false;
    }
    if top == c {
        return true;
    }
    let x = get_cell(pool, top);
    holds_cell(pool, height - 1, x.parent, c)
}

// The states of a stack, the lowest first; the places above the height are kept.
#[tactic(auto, using(crate::proofs::Stacks::states_ways))]
pub fn states_into(pool: &[u8], height: u16, top: CellNo, old: [u16; HEIGHTS]) -> [u16; HEIGHTS]
    requires { (height ≤ max_height) × StackIn pool.now height top.0 }
    ensures { result ≡ written (reverse (states (entries_of (cell_at pool.now) height top.0))) old }
{
    if height == 0 {
        return old;
    }
    let x = get_cell(pool, top);
    let below = height - 1;
    let mut list = old;
    list[usize::from(below)] = x.state.0;
    states_into(pool, below, x.parent, list)
}
