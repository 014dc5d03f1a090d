// Applying: the planned chains of one reading are followed once more by the planner's marks, with actions. Dead ends are passed over.
#![tactic(auto)]

ghost use Rattle.std.specs.Prelude.{◌≡◌};
ghost use Rattle.meaning.specs.Readings.{states};
ghost use Rattle.meaning.specs.Walk.{plan};
ghost use Rattle.actions.specs.Acting.{stack_in};
ghost use Rattle.applying.specs.Following.{marks_of, place, StateReady, StateDone, RulesReady, RulesDone, EndReady, EndDone, ReadingReady, ReadingDone};
ghost use Rattle.applying.specs.Planting.{PlanReady, PlanDone};

use actions::{Counts, Top};
use chains::Planned;
use meaning::{Refusal, Term};
use state::Work;
use table::{Action, Table};

// What is applied: a term, with the results appended to the list that begins at `list`.
#[derive(Clone, Copy)]
struct Ask {
    list: usize,
    term: Term,
}

// The planner's marks.
#[tactic(auto, unfolding(crate::specs::Following::marks_of))]
fn marks(work: &Work) -> &[u8]
    ensures { result.now ≡ marks_of work.now }
{
    &work[state::MARKS_AT..state::RESULTS_AT]
}

// The end of a rule list: its shift, if any, ends a chain that has succeeded.
fn end_chain(work: &mut Work, ask: Ask, reading: Top, counts: Counts, action: Action) -> Counts
    requires { EndReady ask work.old reading counts action }
    ensures { EndDone ask work.old reading counts action work.new result }
{
    match action.shift {
        Some(to) => actions::shift_one(work, ask.list, ask.term, reading, counts, to),
        None => counts,
    }
}

// A state's chains: those of its rule list.
#[cycle(apply_rules_apply_state)]
fn apply_state(
    table: &Table,
    work: &mut Work,
    ask: Ask,
    reading: Top,
    counts: Counts,
    at: usize,
) -> Counts
    requires { StateReady (place table.now ask work.old reading counts at) }
    ensures { StateDone (place table.now ask work.old reading counts at) work.new result }
{
    let top = cells::get_cell(work, reading.cell);
    let action = table.action(top.state, ask.term.class);
    apply_rules(table, work, ask, reading, counts, at, action)
}

// The chains of a state's rule list, whose marks begin at the one numbered `first`. A reduction below which no chain ends is not run; what stands beside one begins behind its marks.
#[cycle(apply_rules_apply_state)]
fn apply_rules(
    table: &Table,
    work: &mut Work,
    ask: Ask,
    reading: Top,
    before: Counts,
    first: usize,
    action: Action,
) -> Counts
    requires { RulesReady (place table.now ask work.old reading before first) action 0 }
    ensures { RulesDone (place table.now ask work.old reading before first) action 0 work.new result }
{
    let mut counts = before;
    let mut at = first;
    for rule in &action.rules[..usize::from(action.count)] {
        let size = chains::size_mark(marks(work), at);
        let beside = at + size;
        if chains::chains_mark(marks(work), at) != 0 {
            let step = actions::reduce_one(table, work, reading, counts, *rule);
            counts = match step.reduced {
                Some(top) => apply_state(table, work, ask, top, step.counts, at + 1),
                None => step.counts,
            };
        }
        at = beside;
    }
    end_chain(work, ask, reading, counts, action)
}

// One planning of a reading at a class, after so many chains and with room for so many in all.
#[tactic(auto, unfolding(crate::specs::Following::marks_of))]
pub fn plan_reading(
    table: &Table,
    work: &mut Work,
    room: usize,
    class: u16,
    reading: Top,
    chains: usize,
) -> Result<Planned, Refusal>
    requires { PlanReady work.old room reading chains }
    ensures { PlanDone (plan table.now room class (states (stack_in work.old reading)) chains) work.old work.new result }
{
    chains::plan_within(
        table,
        work,
        state::MARKS_AT,
        reading.height,
        reading.cell,
        class,
        room,
        chains,
    )
}

// All chains of one reading: its results and error records are appended, and its births are the cells from the next one on.
pub fn apply_reading(
    table: &Table,
    work: &mut Work,
    list: usize,
    term: Term,
    reading: Top,
    counts: Counts,
) -> Counts
    requires { ReadingReady table.now work.old list term reading counts }
    ensures { ReadingDone table.now work.old list term reading counts work.new result }
{
    apply_state(table, work, Ask { list, term }, reading, counts, 0)
}
