// One reduction of a simulated stack, with the refusals that it may meet.
ghost use Rattle.std.specs.Prelude.{◌≡◌, ◌-◌, ◌<◌, ◌≤◌, get_or};
ghost use Rattle.meaning.specs.Limits.{max_height, max_walked};
ghost use Rattle.chains.specs.Simulated.{stack_of, Standing, Pushed};
ghost use Rattle.chains.specs.Reducing.{Stepped, IsReduction};

use meaning::{HEIGHTS, MAX_WALKED, Refusal, StateNo};
use table::Table;

// A simulated stack: its states, lowest first, and its height. It is copied at each reduction.
#[derive(Clone, Copy)]
pub struct Stack {
    pub states: [u16; HEIGHTS],
    pub height: usize,
}

// How far a walk is: the steps left in its chain, the reductions tried and the chains ended so far.
#[derive(Clone, Copy)]
pub struct Progress {
    pub left: usize,
    pub walked: usize,
    pub chains: usize,
}

// What a reduction leads to: the state to push, and the height to push it at.
#[derive(Clone, Copy)]
pub struct Reduced {
    pub state: StateNo,
    pub base: usize,
}

// The top state.
#[tactic(auto, using(crate::proofs::Arrays::top_stack_of))]
pub fn top(stack: Stack) -> StateNo
    requires { Standing stack }
    ensures { result.0 ≡ get_or (stack_of stack.states stack.height) 0 0 }
{
    let i = stack.height - 1;
    StateNo(stack.states[i])
}

// The stack with `base` entries kept and one state on top of them.
#[tactic(auto, using(crate::proofs::Arrays::push_leaves))]
pub fn pushed(stack: Stack, base: usize, state: StateNo) -> Stack
    requires { base < max_height }
    ensures { Pushed stack base state result }
{
    let mut states = stack.states;
    states[base] = state.0;
    Stack {
        states,
        height: base + 1,
    }
}

// One reduction further on.
pub fn stepped(at: Progress) -> Progress
    requires { (1 ≤ at.left) × (at.walked < max_walked) }
    ensures { Stepped at result }
{
    Progress {
        left: at.left - 1,
        walked: at.walked + 1,
        ..at
    }
}

// Where the rule numbered `number` leads from a stack; the tests stand in their order.
pub fn reduce_by(table: &Table, stack: Stack, number: u16, at: Progress) -> Result<Reduced, Refusal>
    requires { Standing stack }
    ensures { IsReduction table.now number stack at result }
{
    if MAX_WALKED <= at.walked {
        return Err(Refusal::WalkTooLong);
    }
    if at.left == 0 {
        return Err(Refusal::ChainTooLong);
    }
    let rule = table.rule(number);
    let len = usize::from(rule.len);
    if stack.height <= len {
        return Err(Refusal::ReachesStart);
    }
    let base = stack.height - len;
    let popped = Stack {
        height: base,
        ..stack
    };
    let state = table.goto(top(popped), rule.left).ok_or(Refusal::NoGoto)?;
    if HEIGHTS <= base {
        return Err(Refusal::TooHigh);
    }
    Ok(Reduced { state, base })
}
