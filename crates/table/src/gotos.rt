// The gotos of a table file: their check, and the goto of a state and a nonterminal.
ghost use Rattle.std.specs.Prelude.{◌≡◌, ◌+◌, ◌≤◌, length, None, Some};
ghost use Rattle.meaning.specs.TableFile.{goto_at};
ghost use Rattle.meaning.specs.TableRight.{goto_right, goto_format};
ghost use Rattle.table.specs.Answers.{goto_answer};
ghost use Rattle.table.specs.Records.{Sound, seek};
ghost use Rattle.table.specs.Kinds.{goto_bytes, placed_gotos, goto_laws};

use super::records::{Record, find};
use meaning::{Counts, StateNo, View};

// A record's state, nonterminal and target, two bytes each.
const GOTO_SIZE: usize = 6;

fn goto_right(table: &[u8], counts: Counts, p: usize) -> bool
    requires { p + 6 ≤ length table.now }
    ensures { result ≡ goto_right counts (goto_at table.now p) }
{
    let state = numbers::get16(table, p);
    let nonterminal = numbers::get16(table, p + 2);
    let to = numbers::get16(table, p + 4);
    state < counts.states && nonterminal < counts.nonterminals && to < counts.states
}

// The records of gotos.
pub struct Gotos;

impl Record for Gotos {
    ghost size = { goto_bytes };

    ghost format = { placed_gotos };

    ghost laws = { goto_laws };

    fn size(_table: &[u8], _p: usize) -> usize {
        GOTO_SIZE
    }

    fn right(table: &[u8], counts: Counts, p: usize) -> bool {
        goto_right(table, counts, p)
    }
}

// Where a state goes on at a nonterminal.
pub(super) fn find_goto(table: &[u8], view: View, state: u16, nonterminal: u16) -> Option<StateNo>
    requires { Sound (goto_format table.now view.counts) table.now view.gotos.at view.gotos.end }
    ensures { result ≡ goto_answer (seek (goto_format table.now view.counts) (λ g. Some g.target) None state nonterminal view.gotos.end view.gotos.at) }
{
    let p = find::<Gotos>(table, state, nonterminal, view.gotos.at, view.gotos.end)?;
    Some(StateNo(numbers::get16(table, p + 4)))
}
