// A local list is lent to the machine and handed back by value with the answer: whoever calls these functions lends no list of records.
#![tactic(auto)]

ghost use Rattle.promises.specs.Calls.{StackPromise, FeedPromise};

use machine::Machine;
use meaning::{Entry, ErrorRecord, FeedAnswer, StackAnswer, Term};

// The answer of a feed, and what the lent list holds after it.
#[derive(Clone, Copy)]
pub struct FedList<const N: usize> {
    pub answer: FeedAnswer,
    pub errors: [ErrorRecord; N],
}

// The answer of a stack read out, and what the lent list holds after it.
#[derive(Clone, Copy)]
pub struct StackList<const N: usize> {
    pub answer: StackAnswer,
    pub entries: [Entry; N],
}

// Feeds one term; the error records go into a list that held others before.
pub fn feed_listed<const N: usize>(
    table: &[u8],
    state: &mut [u8],
    work: &mut [u8],
    term: Term,
    before: [ErrorRecord; N],
) -> FedList<N>
    ensures { FeedPromise table.now state.old work.old term before.entry result.answer state.new work.new result.errors }
{
    let mut errors = before;
    let answer = Machine::feed(table, state, work, term, &mut errors);
    FedList { answer, errors }
}

// Reads the stack of a reading out, into a list that held other entries before.
pub fn stack_listed<const N: usize>(
    table: &[u8],
    state: &[u8],
    number: u16,
    before: [Entry; N],
) -> StackList<N>
    ensures { StackPromise table.now state.now number before.entry result.answer result.entries }
{
    let mut entries = before;
    let answer = Machine::stack(table, state, number, &mut entries);
    StackList { answer, entries }
}
