// The action records of a table file: their check, and the record of a state and a class.
ghost use Rattle.std.specs.Prelude.{◌≡◌, ◌+◌, ◌*◌, ◌≤◌, length, get_or};
ghost use Rattle.meaning.specs.TableFile.{numbers, action_at, action_size, shift_to, no_record};
ghost use Rattle.meaning.specs.TableRight.{action_right, action_format};
ghost use Rattle.table.specs.Answers.{action_answer, goto_answer};
ghost use Rattle.table.specs.Records.{head_right, below, placed, Sound, seek};
ghost use Rattle.table.specs.Kinds.{placed_actions, action_laws};

use super::records::{Record, find};
use super::{Action, reading};
use meaning::{Counts, StateNo, View};

// A record with this target has no shift.
pub const NO_SHIFT: u16 = 65535;

// The state, the class, the target and the count of rules.
fn head_right(counts: Counts, state: u16, class: u16, to: u16, count: u8) -> bool
    ensures { result ≡ head_right counts state class to count }
{
    let known = state < counts.states && class < counts.classes && count <= 4;
    if to == NO_SHIFT {
        return known && 0 < count;
    }
    known && to < counts.states
}

// Whether n numbers from p on are below m.
fn all_below(table: &[u8], m: u16, n: u8, p: usize) -> bool
    requires { p + 2 * n ≤ length table.now }
    ensures { result ≡ below m (numbers n table.now p) }
{
    for i in 0..usize::from(n) {
        if m <= numbers::get16(table, p + 2 * i) {
            return false;
        }
    }
    true
}

fn action_right(table: &[u8], counts: Counts, p: usize) -> bool
    requires { p + action_size table.now p ≤ length table.now }
    ensures { result ≡ action_right counts (action_at table.now p) }
{
    let state = numbers::get16(table, p);
    let class = numbers::get16(table, p + 2);
    let to = numbers::get16(table, p + 4);
    let count = table[p + 6];
    head_right(counts, state, class, to, count) && all_below(table, counts.rules, count, p + 7)
}

// The records of actions.
pub struct Actions;

impl Record for Actions {
    ghost size = { action_size };

    ghost format = { placed_actions };

    ghost laws = { action_laws };

    fn size(table: &[u8], p: usize) -> usize {
        reading::action_size(table, p)
    }

    fn right(table: &[u8], counts: Counts, p: usize) -> bool {
        action_right(table, counts, p)
    }
}

// Where a record's target leads.
fn shift(to: u16) -> Option<StateNo>
    ensures { result ≡ goto_answer (shift_to to) }
{
    if to == NO_SHIFT {
        return None;
    }
    Some(StateNo(to))
}

// The i-th of n numbers from p on, or 0.
fn number_at(table: &[u8], p: usize, n: u8, i: u8) -> u16
    requires { p + 2 * n ≤ length table.now }
    ensures { result ≡ get_or (numbers n table.now p) i 0 }
{
    if i < n {
        return numbers::get16(table, p + 2 * usize::from(i));
    }
    0
}

fn action_at(table: &[u8], p: usize) -> Action
    requires { p + action_size table.now p ≤ length table.now }
    ensures { result ≡ action_answer (action_at table.now p) }
{
    let to = numbers::get16(table, p + 4);
    let count = table[p + 6];
    let first = number_at(table, p + 7, count, 0);
    let second = number_at(table, p + 7, count, 1);
    let third = number_at(table, p + 7, count, 2);
    let fourth = number_at(table, p + 7, count, 3);
    Action {
        shift: shift(to),
        count,
        rules: [first, second, third, fourth],
    }
}

// The record of a state and a class, or no action.
pub(super) fn find_action(table: &[u8], view: View, state: u16, class: u16) -> Action
    requires { Sound (action_format table.now view.counts) table.now view.actions.at view.actions.end }
    ensures { result ≡ action_answer (seek (action_format table.now view.counts) (λ a. a) no_record state class view.actions.end view.actions.at) }
{
    match find::<Actions>(table, state, class, view.actions.at, view.actions.end) {
        Some(p) => action_at(table, p),
        None => Action {
            shift: None,
            count: 0,
            rules: [0; 4],
        },
    }
}
