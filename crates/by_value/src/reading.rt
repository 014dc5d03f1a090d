// The call by value under `Machine::stack`, for programs and exports: a stack is read out, top first, into a list by value.
ghost use Rattle.std.specs.Prelude.{◌≡◌, ◌≤◌, true, map, length};
ghost use Rattle.meaning.specs.Calls.{written, stack_right};
ghost use Rattle.meaning.specs.Readings.{seen};
ghost use Rattle.cells.specs.Pool.{cell_at};
ghost use Rattle.cells.specs.Stacks.{entries_of, StackIn};
ghost use Rattle.state.specs.Readings.{readings_of};
ghost use Rattle.promises.specs.Buffers.{lists_right};
ghost use Rattle.promises.specs.Calls.{stack_on};
ghost use Rattle.by_value.specs.Reading.{ReadReady, EntriesRead, refused_read, handed_read, RightState, ReadPromise};

use lists::Entries;
use meaning::{CellNo, Entry, HEIGHTS, Refusal, StackAnswer, StackOutcome};
use state::{STATE_LENGTH, State};

// What a call answers, and the entries for the lent list.
#[derive(Clone, Copy)]
pub struct StackRead {
    pub answer: StackAnswer,
    pub entries: Entries,
}

fn refused(refusal: Refusal) -> StackRead
    ensures { result ≡ refused_read refusal }
{
    let list = [Entry::default(); HEIGHTS];
    let entries = Entries { list, count: 0 };
    StackRead {
        answer: Err(refusal),
        entries,
    }
}

// The entries of a stack go into the places of a list, top first; the other places are kept.
fn entries_into(state: &State, height: u16, top: CellNo, out: &mut [Entry])
    requires { (height ≤ length out.old) × StackIn state.now height top.0 }
    ensures { out.new ≡ written (map seen (entries_of (cell_at state.now) height top.0)) out.old }
{
    if height == 0 {
        return;
    }
    out[0] = cells::entry_at(state, top);
    let x = cells::get_cell(state, top);
    entries_into(state, height - 1, x.parent, &mut out[1..]);
}

// The entries of a stack, top first.
fn entries_of(state: &State, height: u16, top: CellNo) -> Entries
    requires { ReadReady state.now height top.0 }
    ensures { EntriesRead (map seen (entries_of (cell_at state.now) height top.0)) result }
{
    let mut list = [Entry::default(); HEIGHTS];
    entries_into(state, height, top, &mut list);
    Entries {
        list,
        count: usize::from(height),
    }
}

// The stack of a reading, of a state that was found right.
fn stack_right(state: &State, number: u16) -> Result<StackRead, Refusal>
    requires { RightState state.now }
    ensures { ReadPromise (stack_right (readings_of state.now) number) (handed_read result) }
{
    let count = state::reading_count(state);
    if count == 0 {
        return Err(Refusal::Consumed);
    }
    if number >= count {
        return Err(Refusal::WrongArgument);
    }
    let slot = state::get_slot(state, state::READINGS_AT, number);
    let x = cells::get_cell(state, slot.top);
    let entries = entries_of(state, x.height, slot.top);
    Ok(StackRead {
        answer: Ok(StackOutcome {
            height: x.height,
            mark: slot.mark,
        }),
        entries,
    })
}

// On a state buffer of the right length.
fn stack_found(table: &[u8], state: &State, number: u16) -> Result<StackRead, Refusal>
    ensures { ReadPromise (stack_on true table.now state.now number) (handed_read result) }
{
    checks::find_table(table, state)?;
    stack_right(state, number)
}

// Reads the stack of a reading out, for a lent list of so many places.
pub fn stack_of(table: &[u8], state: &[u8], number: u16, places: usize) -> StackRead
    ensures { ReadPromise (stack_on (lists_right state.now places) table.now state.now number) result }
{
    let Some(state) = state.as_array::<STATE_LENGTH>() else {
        return refused(Refusal::WrongLength);
    };
    let listed = places == HEIGHTS;
    if !listed {
        return refused(Refusal::WrongLength);
    }
    stack_found(table, state, number).unwrap_or_else(refused)
}
