// What tools/bench and tools/compare measure from Rust: the check of a table file alone and with one lookup behind it, a start, a feed, and a feed's parts.
#![tactic(auto)]

ghost use Rattle.std.specs.Prelude.{◌≡◌, length};
ghost use Rattle.meaning.specs.TableRight.{table_ok};
ghost use Rattle.numbers.specs.Zeros.{zeros};
ghost use Rattle.bench.specs.Measured.{one_if, place_to, action_target, goto_target, StartMeasured, FeedMeasured, state_right, loaded_if};

use by_value::running;
use machine::Machine;
use meaning::{FeedNumbers, StartNumbers, StateNo, Term};
use state::{STATE_CELLS, STATE_LENGTH, WORK_LENGTH};
use table::Table;

// 1 if the table is right, else 0.
#[unsafe(no_mangle)]
pub extern "C" fn bench_check(table: &[u8]) -> u32
    ensures { result ≡ one_if (table_ok table.now) }
{
    u32::from(table::check_table(table).is_some())
}

// The number of a state, 0 if there is none.
fn place(to: Option<StateNo>) -> u32
    ensures { result ≡ place_to to }
{
    to.map_or(0, |state| u32::from(state.0))
}

// The check, and where a state shifts to at a class; 0 if it does not, or the table is wrong.
#[unsafe(no_mangle)]
pub extern "C" fn bench_action(table: &[u8], state: u16, class: u16) -> u32
    ensures { result ≡ action_target table.now state class }
{
    match Table::check(table) {
        Some(table) => place(table.action(StateNo(state), class).shift),
        None => 0,
    }
}

// The check, and where a state goes on after a reduction; 0 if there is no goto, or the table is wrong.
#[unsafe(no_mangle)]
pub extern "C" fn bench_goto(table: &[u8], state: u16, nonterminal: u16) -> u32
    ensures { result ≡ goto_target table.now state nonterminal }
{
    match Table::check(table) {
        Some(table) => place(table.goto(StateNo(state), nonterminal)),
        None => 0,
    }
}

// The answer's number of a start.
#[unsafe(no_mangle)]
pub extern "C" fn bench_start(table: &[u8], state: &mut [u8], work: &mut [u8]) -> u32
    ensures { StartMeasured table.now state.old work.old result state.new work.new }
{
    let numbers: StartNumbers = Machine::start(table, state, work).into();
    u32::from(numbers.answer)
}

// The answer's number of a feed; its error records are dropped.
#[unsafe(no_mangle)]
pub extern "C" fn bench_feed(
    table: &[u8],
    state: &mut [u8],
    work: &mut [u8],
    class: u16,
    value: u32,
    start: u32,
    end: u32,
) -> u32
    ensures { FeedMeasured table.now state.old work.old (record { class = class; value = value; start = start; end = end }) result state.new work.new }
{
    let term = Term {
        class,
        value,
        start,
        end,
    };
    let run = running::feed_of(table, state, work, term, Machine::ERRORS);
    let numbers: FeedNumbers = run.answer.into();
    u32::from(numbers.answer)
}

// A feed's part: the check of a state. 1 if the state is right, else 0.
#[unsafe(no_mangle)]
pub extern "C" fn bench_state(state: &[u8], states: u16) -> u32
    ensures { result ≡ state_right state.now states }
{
    match state.as_array::<STATE_LENGTH>() {
        Some(state) => u32::from(state::valid_state(state, states)),
        None => 0,
    }
}

// A feed's part: the cells in use are copied to the work area.
#[unsafe(no_mangle)]
pub extern "C" fn bench_load(state: &[u8], work: &mut [u8])
    ensures { work.new ≡ loaded_if state.now work.old }
{
    let Some(state) = state.as_array::<STATE_LENGTH>() else {
        return;
    };
    let Some(work) = work.as_mut_array::<WORK_LENGTH>() else {
        return;
    };
    if state::cells_in_use(state) <= STATE_CELLS {
        state::load(state, work);
    }
}

// A feed's part: the clearing of the work area.
#[unsafe(no_mangle)]
pub extern "C" fn bench_clear(work: &mut [u8])
    ensures { work.new ≡ zeros (length work.old) }
{
    numbers::clear(work);
}
