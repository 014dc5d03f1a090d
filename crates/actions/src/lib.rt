// The steps of applying, over the work area: one reduction with its action, one shift. Each appends what it gives birth to.
#![tactic(auto)]

ghost use Rattle.std.specs.Prelude.{◌≡◌, ◌≤◌};
ghost use Rattle.meaning.specs.Limits.{max_height};
ghost use Rattle.meaning.specs.TableFile.{goto_of, target};
ghost use Rattle.actions.specs.Acting.{Pops, shifted_cell};
ghost use Rattle.actions.specs.Errors.{put_error};
ghost use Rattle.actions.specs.Steps.{base_state, born_cell, Born, BirthReady, RefusalReady, StepReady, StepIs, ShiftReady, ShiftIs};

use cells::Cell;
use meaning::{CellNo, ErrorRecord, Rule, StateNo, Term};
use state::{Slot, Work};
use table::Table;

pub mod errors;
mod kinds;
mod popping;

// How many cells, results and error records there are.
#[derive(Clone, Copy)]
pub struct Counts {
    pub cells: u16,
    pub results: u16,
    pub errors: u16,
}

// A reading in the work area: its top cell, its height, its mark.
#[derive(Clone, Copy)]
pub struct Top {
    pub cell: CellNo,
    pub height: u16,
    pub mark: u32,
}

// What a reduction comes to: a higher reading, or none where the action refused; and the counts after it.
#[derive(Clone, Copy)]
pub struct Step {
    pub reduced: Option<Top>,
    pub counts: Counts,
}

// Where a state goes on at a nonterminal; 0 for nowhere, which planning has ruled out.
#[tactic(auto, unfolding(table::specs::Answers::goto_answer))]
fn lands_in(table: &Table, state: StateNo, left: u16) -> StateNo
    ensures { result.0 ≡ target (goto_of table.now state.0 left) }
{
    table.goto(state, left).unwrap_or_default()
}

// The top state after popping.
#[tactic(auto, using(crate::proofs::PoppingLaws::base_there))]
fn base_state(work: &[u8], reading: Top, len: u16) -> StateNo
    requires { Pops work.now reading len }
    ensures { result.0 ≡ base_state work.now reading len }
{
    let base = popping::cell_below(work, reading, len);
    base.state
}

// The cell of a reduction whose action gave `value`: its state is where the goto leads.
#[tactic(auto, unfolding(crate::specs::Steps::born_cell, crate::specs::Steps::lands_in))]
fn born_cell(table: &Table, work: &[u8], reading: Top, rule: Rule, value: u32) -> Cell
    requires { Pops work.now reading rule.len × (reading.height ≤ max_height) }
    ensures { result ≡ born_cell table.now rule value work.now reading }
{
    let len = u16::from(rule.len);
    let base = base_state(work, reading, len);
    let to = lands_in(table, base, rule.left);
    popping::reduced_cell(work, reading, len, to, value)
}

// Such a reduction: its cell is born, and the mark grows by the rule's.
#[tactic(auto, unfolding(crate::specs::Steps::born_cell, crate::specs::Acting::reduced_cell, crate::specs::Steps::top_by))]
fn reduce_to(table: &Table, work: &mut Work, reading: Top, next: u16, rule: Rule, value: u32) -> Top
    requires { BirthReady work.old reading next rule.len }
    ensures { Born table.now rule value work.old reading next work.new result }
{
    let born = born_cell(table, work, reading, rule, value);
    Top {
        cell: cells::birth(work, next, born),
        height: born.height,
        mark: reading.mark.wrapping_add(rule.mark),
    }
}

// A refused action: its error record has the rule, the top state after popping, the mark before the action.
fn refuse(work: &mut Work, reading: Top, errors: u16, number: u16, len: u16)
    requires { RefusalReady work.old reading errors len }
    ensures { work.new ≡ put_error work.old errors (record { rule = number; state = record { 0 = base_state work.old reading len }; mark = reading.mark }) }
{
    let state = base_state(work, reading, len);
    errors::put_error(
        work,
        errors,
        ErrorRecord {
            rule: number,
            state,
            mark: reading.mark,
        },
    );
}

// One reduction by the rule of a number, with its action.
#[tactic(auto, unfolding(meaning::specs::Applying::refused_action))]
pub fn reduce_one(table: &Table, work: &mut Work, reading: Top, counts: Counts, number: u16) -> Step
    requires { StepReady table.now work.old reading counts number }
    ensures { StepIs table.now work.old reading counts number work.new result }
{
    let rule = table.rule(number);
    match popping::act_on(work, reading, rule) {
        Some(value) => {
            let top = reduce_to(table, work, reading, counts.cells, rule, value);
            Step {
                reduced: Some(top),
                counts: Counts {
                    cells: counts.cells + 1,
                    ..counts
                },
            }
        }
        None => {
            refuse(work, reading, counts.errors, number, u16::from(rule.len));
            Step {
                reduced: None,
                counts: Counts {
                    errors: counts.errors + 1,
                    ..counts
                },
            }
        }
    }
}

// The cell of a term that is shifted.
#[tactic(auto, unfolding(crate::specs::Acting::shifted_cell))]
fn shifted_cell(term: Term, reading: Top, to: StateNo) -> Cell
    requires { reading.height ≤ max_height }
    ensures { result ≡ shifted_cell term reading to.0 }
{
    Cell {
        parent: reading.cell,
        height: reading.height + 1,
        state: to,
        value: term.value,
        start: term.start,
        end: term.end,
    }
}

// A shift: an entry is born, a chain has succeeded, and its reading is appended to the list.
#[tactic(auto, unfolding(crate::specs::Steps::shift_by))]
pub fn shift_one(
    work: &mut Work,
    list: usize,
    term: Term,
    reading: Top,
    counts: Counts,
    to: StateNo,
) -> Counts
    requires { ShiftReady list work.old reading counts }
    ensures { ShiftIs term to.0 list work.old reading counts work.new result }
{
    let top = cells::birth(work, counts.cells, shifted_cell(term, reading, to));
    let mark = reading.mark;
    state::put_slot(work, list, counts.results, Slot { top, mark });
    Counts {
        cells: counts.cells + 1,
        results: counts.results + 1,
        ..counts
    }
}
