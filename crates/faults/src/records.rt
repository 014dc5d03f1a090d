// The records of the actions and of the gotos, one after the other.
ghost use Rattle.std.specs.Prelude.{◌≡◌, ℕ, List, ◌+◌, ◌≤◌, length};
ghost use Rattle.meaning.specs.declared.Counts.{Counts};
ghost use Rattle.faults.specs.Verdicts.{Verdict};
ghost use Rattle.faults.specs.declared.Place.{Place};
ghost use Rattle.faults.specs.Records.{target_fault, reductions_fault, pair_fault, action_fault, goto_fault, field_fault};

use super::{Broken, Fault, Place};
use meaning::{Counts, Field};
use table::actions::{Actions, NO_SHIFT};
use table::gotos::Gotos;
use table::reading::{byte_at, key_at, u16_at};
use table::records::Record;

// The rules of an action record: n numbers from p on, each of a rule.
fn reductions_fault(table: &[u8], rules: u16, n: u8, place: Place, p: usize) -> Result<(), Broken>
    requires { p ≤ 250000 }
    ensures { result ≡ reductions_fault rules n table.now place p }
{
    for k in 0..usize::from(n) {
        let at = p + 2 * k;
        place.test(u16_at(table, at) < rules, Fault::UnknownRule, at)?;
    }
    Ok(())
}

// Where a record's shift leads; no shift only beside a rule.
fn target_fault(to: u16, states: u16, count: u8, place: Place, p: usize) -> Result<(), Broken>
    requires { p ≤ 250000 }
    ensures { result ≡ target_fault to states count place p }
{
    if to == NO_SHIFT {
        return place.test(0 < count, Fault::NoAction, p + 4);
    }
    place.test(to < states, Fault::UnknownTarget, p + 4)
}

// The state and the class of a record.
fn pair_fault(table: &[u8], counts: Counts, place: Place, p: usize) -> Result<(), Broken>
    requires { p ≤ 240000 }
    ensures { result ≡ pair_fault table.now counts place p }
{
    let state = u16_at(table, p);
    place.test(state < counts.states, Fault::UnknownState, p)?;
    let class = u16_at(table, p + 2);
    place.test(class < counts.classes, Fault::UnknownClass, p + 2)
}

// A kind of record, with the number of its field and what one of its records breaks.
pub(super) trait Faulty: Record {
    ghost FIELD: { ℕ };

    const FIELD: u8;

    ghost fault: { List ℕ → Counts → Place → ℕ → Verdict };

    // The record of a place, at p.
    fn fault(table: &[u8], counts: Counts, place: Place, p: usize) -> Result<(), Broken>
        requires { p ≤ 240000 }
        ensures { result ≡ fault table.now counts place p };
}

impl Faulty for Actions {
    ghost FIELD = { 3 };

    const FIELD: u8 = 3;

    ghost fault = { action_fault };

    fn fault(table: &[u8], counts: Counts, place: Place, p: usize) -> Result<(), Broken> {
        pair_fault(table, counts, place, p)?;
        let count = byte_at(table, p + 6);
        target_fault(u16_at(table, p + 4), counts.states, count, place, p)?;
        place.test(count <= 4, Fault::ManyReductions, p + 6)?;
        reductions_fault(table, counts.rules, count, place, p + 7)
    }
}

impl Faulty for Gotos {
    ghost FIELD = { 4 };

    const FIELD: u8 = 4;

    ghost fault = { goto_fault };

    fn fault(table: &[u8], counts: Counts, place: Place, p: usize) -> Result<(), Broken> {
        let state = u16_at(table, p);
        place.test(state < counts.states, Fault::UnknownState, p)?;
        let side = u16_at(table, p + 2);
        place.test(side < counts.nonterminals, Fault::UnknownNonterminal, p + 2)?;
        let to = u16_at(table, p + 4);
        place.test(to < counts.states, Fault::UnknownTarget, p + 4)
    }
}

// The first broken record of those that fill a field: it goes past the field, is wrong, or does not come after the one before it.
pub(super) fn records_fault<F: Faulty>(
    table: &[u8],
    counts: Counts,
    filled: Field,
) -> Result<(), Broken>
    requires { (filled.end ≤ length table.now) × (filled.end ≤ 65536) }
    ensures { result ≡ field_fault (F.format table.now counts) F.FIELD (F.fault table.now counts) filled.end 0 0 filled.at }
{
    let field = F::FIELD;
    let mut i: usize = 0;
    let mut low: usize = 0;
    let mut at = filled.at;
    while at < filled.end {
        let place = Place {
            field,
            record: Some(i),
        };
        let next = at + F::size(table, at);
        place.test(next <= filled.end, Fault::PastField, at)?;
        F::fault(table, counts, place, at)?;
        let key = key_at(table, at);
        place.test(low <= key, Fault::NotAscending, at)?;
        i += 1;
        low = key + 1;
        at = next;
    }
    Ok(())
}
