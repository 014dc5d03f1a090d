// Start on a state buffer of the right length: the table's start state goes into it. Private: only `Machine` calls it, and it has looked at the lengths.
ghost use Rattle.machine.specs.Lines.{StartLine};

use meaning::{Refusal, START_CLASS, StartAnswer, StateNo};
use state::State;
use table::Table;

pub(super) fn start_line(table: &[u8], state: &mut State) -> StartAnswer
    ensures { StartLine table.now state.old result state.new }
{
    let Some(table) = Table::check(table) else {
        return Err(Refusal::WrongTable);
    };
    let start = table.action(StateNo(0), START_CLASS).shift.unwrap();
    state::start_state(state, start);
    Ok(())
}
