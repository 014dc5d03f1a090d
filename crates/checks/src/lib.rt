// The checks 2 and 3 of every call, and check 5 of a class. Check 1, of the lengths, is made where a call turns the lent bytes into `State` and `Work`.
#![tactic(auto)]

ghost use Rattle.std.specs.Prelude.{◌≡◌};
ghost use Rattle.meaning.specs.Calls.{wrong_class};
ghost use Rattle.checks.specs.Checks.{view_found, found_of};

use meaning::{FIRST_TERM, Refusal, View};
use state::State;
use table::Table;

// Where things stand in the bytes, if they are a right table file and the state is one of that table.
pub fn find(table: &[u8], state: &State) -> Result<View, Refusal>
    ensures { result ≡ view_found table.now state.now }
{
    let view = table::check_table(table).ok_or(Refusal::WrongTable)?;
    if state::valid_state(state, view.counts.states) {
        return Ok(view);
    }
    Err(Refusal::WrongState)
}

// The same, and the table that the bytes say.
pub fn find_table<'a>(table: &'a [u8], state: &State) -> Result<Table<'a>, Refusal>
    ensures { result ≡ found_of table.now state.now }
{
    let view = find(table, state)?;
    Ok(Table { bytes: table, view })
}

// Whether a class is below 3 or not in the table.
#[tactic(auto, unfolding(meaning::specs::Calls::wrong_class))]
pub fn wrong_class(table: &Table, class: u16) -> bool
    ensures { result ≡ wrong_class table.now.counts.classes class }
{
    class < FIRST_TERM || class >= table.classes()
}
