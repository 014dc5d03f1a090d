// One planning: the whole walk of one stack at one class, with its refusals and counts, and the marks by which it is followed.
#![tactic(auto)]

ghost use Rattle.std.specs.Prelude.{◌≡◌, ◌-◌, ◌*◌, ◌<◌, ◌≤◌, length};
ghost use Rattle.meaning.specs.Limits.{max_walked};
ghost use Rattle.meaning.specs.Questions.{enough_room};
ghost use Rattle.meaning.specs.Walk.{plan};
ghost use Rattle.chains.specs.Simulated.{stack_of};
ghost use Rattle.chains.specs.Marks.{put_mark, chains_mark, size_mark, MarksHold};
ghost use Rattle.chains.specs.Actions.{too_high};
ghost use Rattle.chains.specs.Planning.{plan_of, ends_as, Asks, Ready, RulesReady, MarkReady, Answers, state_walk, rules_walk};

use meaning::{HEIGHTS, MAX_CHAIN, Refusal};
use reducing::{Progress, Stack};
use table::{Action, Table};

mod asking;
mod filling;
mod reducing;

pub use filling::{can_plan_stack, plan_stack, plan_within, recovers_stack};

// What a planning comes to: the reductions tried, and the chains ended so far.
#[derive(Clone, Copy)]
pub struct Planned {
    pub walked: usize,
    pub chains: usize,
}

// What is asked of a planning: the room for chains in all, the class.
#[derive(Clone, Copy)]
struct Ask {
    room: usize,
    class: u16,
}

// Whether a state with this action is reached too high up to shift.
fn too_high(action: Action, height: usize) -> bool
    ensures { result ≡ too_high action height }
{
    action.shift.is_some() && HEIGHTS <= height
}

// The end of a rule list: the shift ends a chain, if there is room for one more.
#[tactic(auto, unfolding(meaning::specs::Walk::end_chain))]
fn end_chain(action: Action, room: usize, at: Progress) -> Result<Planned, Refusal>
    requires { at.chains ≤ enough_room }
    ensures { result ≡ plan_of (ends_as action room at) }
{
    let walked = at.walked;
    let chains = at.chains;
    if action.shift.is_some() {
        if room <= chains {
            return Err(Refusal::TooManyReadings);
        }
        return Ok(Planned {
            walked,
            chains: chains + 1,
        });
    }
    Ok(Planned { walked, chains })
}

// Writes the mark of the reduction tried at a place: the chains ended and the reductions tried from there on.
#[tactic(auto, unfolding(crate::specs::Marks::put_mark))]
fn put_mark(marks: &mut [u8], at: Progress, after: Progress)
    requires { MarkReady marks.old at after }
    ensures { marks.new ≡ put_mark marks.old at.walked (after.chains - at.chains) (after.walked - at.walked) }
{
    let chains = after.chains - at.chains;
    let size = after.walked - at.walked;
    numbers::put16(marks, at.walked * 4, chains as u16);
    numbers::put16(marks, at.walked * 4 + 2, size as u16);
}

// How many chains end below the reduction with the mark numbered k.
#[tactic(auto, unfolding(crate::specs::Marks::chains_mark))]
pub fn chains_mark(marks: &[u8], k: usize) -> usize
    requires { (k < max_walked) × (4 * max_walked ≤ length marks.now) }
    ensures { result ≡ chains_mark marks.now k }
{
    usize::from(numbers::get16(marks, k * 4))
}

// How many marks that reduction has, with those below it.
#[tactic(auto, unfolding(crate::specs::Marks::size_mark))]
pub fn size_mark(marks: &[u8], k: usize) -> usize
    requires { (k < max_walked) × (4 * max_walked ≤ length marks.now) }
    ensures { result ≡ size_mark marks.now k }
{
    usize::from(numbers::get16(marks, k * 4 + 2))
}

// The planner of a state: that of its rule list goes on from here.
#[cycle(plan_rules_plan_state)]
fn plan_state(
    table: &Table,
    ask: Ask,
    stack: Stack,
    at: Progress,
    marks: &mut [u8],
) -> Result<Planned, Refusal>
    requires { Ready ask stack at marks.old }
    ensures { Answers result marks.old marks.new at (state_walk table.now ask stack at) }
{
    let action = table.action(reducing::top(stack), ask.class);
    if too_high(action, stack.height) {
        return Err(Refusal::TooHigh);
    }
    plan_rules(table, ask, stack, at, action, marks)
}

// The planner of a state's rule list: it calls the planner of the state that each rule leads to, one chain step on. A part of its caller's code, so that a step takes one frame and fewer copies of the stack.
#[cycle(plan_rules_plan_state)]
#[inline(always)]
fn plan_rules(
    table: &Table,
    ask: Ask,
    stack: Stack,
    from: Progress,
    action: Action,
    marks: &mut [u8],
) -> Result<Planned, Refusal>
    requires { RulesReady ask stack from action marks.old }
    ensures { Answers result marks.old marks.new from (rules_walk table.now ask stack from action 0) }
{
    let mut at = from;
    for rule in &action.rules[..usize::from(action.count)] {
        let to = reducing::reduce_by(table, stack, *rule, at)?;
        let higher = reducing::pushed(stack, to.base, to.state);
        let below = plan_state(table, ask, higher, reducing::stepped(at), marks)?;
        let after = Progress {
            left: at.left,
            walked: below.walked,
            chains: below.chains,
        };
        put_mark(marks, at, after);
        at = after;
    }
    end_chain(action, ask.room, at)
}

// One planning of a simulated stack, after so many chains.
#[tactic(auto, unfolding(meaning::specs::Walk::plan, crate::specs::Planning::state_walk))]
fn plan(
    table: &Table,
    ask: Ask,
    stack: Stack,
    chains: usize,
    marks: &mut [u8],
) -> Result<Planned, Refusal>
    requires { Asks ask.room stack chains marks.old }
    ensures answer { result ≡ plan_of (plan table.now ask.room ask.class (stack_of stack.states stack.height) chains) }
    ensures marked { MarksHold marks.new 0 (plan table.now ask.room ask.class (stack_of stack.states stack.height) chains) }
{
    let at = Progress {
        left: MAX_CHAIN,
        walked: 0,
        chains,
    };
    plan_state(table, ask, stack, at, marks)
}
