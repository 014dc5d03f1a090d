// Whether one stack can be planned, and whether one can be at some height: the core of the three questions.
ghost use Rattle.std.specs.Prelude.{◌≡◌};
ghost use Rattle.meaning.specs.Questions.{enough_room, can_plan, recovers_from};
ghost use Rattle.chains.specs.Simulated.{stack_of};
ghost use Rattle.chains.specs.Planning.{Asks};

use super::reducing::Stack;
use super::{Ask, plan};
use meaning::{ERROR_CLASS, MAX_WALKED, QuestionAnswer};
use table::Table;

// No walk needs more room, so a question is never refused for want of it.
const ENOUGH_ROOM: usize = MAX_WALKED + 1;

// Whether a stack can be planned at a class.
#[tactic(auto, using(crate::proofs::Questions::can_by_chains))]
pub fn can_plan(table: &Table, class: u16, stack: Stack, marks: &mut [u8]) -> QuestionAnswer
    requires { Asks enough_room stack 0 marks.old }
    ensures { result ≡ can_plan table.now class (stack_of stack.states stack.height) }
{
    let ask = Ask {
        room: ENOUGH_ROOM,
        class,
    };
    Ok(plan(table, ask, stack, 0, marks)?.chains > 0)
}

// Whether a stack can be planned for the error class at some height down to 1.
#[tactic(auto, using(crate::proofs::Questions::recovers_none, crate::proofs::Questions::recovers_step))]
pub fn recovers_from(table: &Table, stack: Stack, marks: &mut [u8]) -> QuestionAnswer
    requires { Asks enough_room stack 0 marks.old }
    ensures { result ≡ recovers_from table.now (stack_of stack.states stack.height) }
{
    for below in (0..stack.height).rev() {
        let lower = Stack {
            height: below + 1,
            ..stack
        };
        if can_plan(table, ERROR_CLASS, lower, marks)? {
            return Ok(true);
        }
    }
    Ok(false)
}
