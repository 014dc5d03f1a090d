// Plannings of stacks of cells: the simulated stack is filled by recursion through parent cells.
ghost use Rattle.std.specs.Prelude.{◌≡◌, ◌≤◌};
ghost use Rattle.meaning.specs.Limits.{max_height};
ghost use Rattle.meaning.specs.Readings.{states};
ghost use Rattle.meaning.specs.Walk.{plan};
ghost use Rattle.meaning.specs.Questions.{enough_room, can_plan, recovers_from};
ghost use Rattle.cells.specs.Pool.{cell_at};
ghost use Rattle.cells.specs.Stacks.{StackIn, entries_of};
ghost use Rattle.chains.specs.Marks.{MarksHold};
ghost use Rattle.chains.specs.Planning.{plan_of};
ghost use Rattle.chains.specs.Filling.{StackAsks, WithinAsks, PlannedWithin, Filled};

use super::reducing::Stack;
use super::{Ask, Planned, asking};
use meaning::{CellNo, HEIGHTS, MAX_WALKED, QuestionAnswer, Refusal};
use table::Table;

// The simulated stack of the stack with this top in a pool.
#[tactic(auto, using(crate::proofs::Filled::filled))]
fn filled(pool: &[u8], height: u16, top: CellNo) -> Stack
    requires { StackIn pool.now height top.0 × (1 ≤ height) × (height ≤ max_height) }
    ensures { Filled pool.now height top.0 result }
{
    Stack {
        states: cells::states_into(pool, height, top, [0; HEIGHTS]),
        height: usize::from(height),
    }
}

// One planning of the stack with this top in a pool, after so many chains, with room for so many in all.
pub fn plan_stack(
    table: &Table,
    pool: &[u8],
    height: u16,
    top: CellNo,
    class: u16,
    room: usize,
    chains: usize,
    marks: &mut [u8],
) -> Result<Planned, Refusal>
    requires { StackAsks pool.now height top.0 room chains marks.old }
    ensures answer { result ≡ plan_of (plan table.now room class (states (entries_of (cell_at pool.now) height top.0)) chains) }
    ensures marked { MarksHold marks.new 0 (plan table.now room class (states (entries_of (cell_at pool.now) height top.0)) chains) }
{
    let stack = filled(pool, height, top);
    super::plan(table, Ask { room, class }, stack, chains, marks)
}

// The same where the marks stand in the bytes that hold the stack too, from `at` on.
pub fn plan_within(
    table: &Table,
    work: &mut [u8],
    at: usize,
    height: u16,
    top: CellNo,
    class: u16,
    room: usize,
    chains: usize,
) -> Result<Planned, Refusal>
    requires { WithinAsks work.old at height top.0 room chains }
    ensures { PlannedWithin (plan table.now room class (states (entries_of (cell_at work.old) height top.0)) chains) work.old at work.new result }
{
    let stack = filled(work, height, top);
    let end = at + 4 * MAX_WALKED;
    super::plan(
        table,
        Ask { room, class },
        stack,
        chains,
        &mut work[at..end],
    )
}

// Whether the stack with this top in a pool can be planned at a class.
pub fn can_plan_stack(
    table: &Table,
    pool: &[u8],
    height: u16,
    top: CellNo,
    class: u16,
    marks: &mut [u8],
) -> QuestionAnswer
    requires { StackAsks pool.now height top.0 enough_room 0 marks.old }
    ensures { result ≡ can_plan table.now class (states (entries_of (cell_at pool.now) height top.0)) }
{
    let stack = filled(pool, height, top);
    asking::can_plan(table, class, stack, marks)
}

// Whether it can be planned for the error class at some height down to 1.
pub fn recovers_stack(
    table: &Table,
    pool: &[u8],
    height: u16,
    top: CellNo,
    marks: &mut [u8],
) -> QuestionAnswer
    requires { StackAsks pool.now height top.0 enough_room 0 marks.old }
    ensures { result ≡ recovers_from table.now (states (entries_of (cell_at pool.now) height top.0)) }
{
    let stack = filled(pool, height, top);
    asking::recovers_from(table, stack, marks)
}
