// The rules of a table file, one after the other.
ghost use Rattle.std.specs.Prelude.{◌≡◌, ◌+◌, ◌*◌, ◌≤◌, length};
ghost use Rattle.faults.specs.Rules.{pick_fault, high_fault, range_fault, kind_fault, rule_fault, rules_fault};

use super::{Broken, Fault, Place};
use meaning::{Counts, Rule};
use table::rules::rule_at;

// The item that is picked: there is one, and it is among the items.
fn pick_fault(r: Rule, place: Place, p: usize) -> Result<(), Broken>
    requires { p ≤ 2500000 }
    ensures { result ≡ pick_fault r place p }
{
    place.test(1 <= r.pick, Fault::PickNoItem, p + 4)?;
    place.test(r.pick <= r.len, Fault::PickNoItem, p + 4)
}

fn high_fault(r: Rule, place: Place, p: usize) -> Result<(), Broken>
    requires { p ≤ 2500000 }
    ensures { result ≡ high_fault r place p }
{
    place.test(r.high == 0, Fault::HighNotZero, p + 13)
}

// No low and no high.
fn range_fault(r: Rule, place: Place, p: usize) -> Result<(), Broken>
    requires { p ≤ 2500000 }
    ensures { result ≡ range_fault r place p }
{
    place.test(r.low == 0, Fault::LowNotZero, p + 9)?;
    high_fault(r, place, p)
}

fn kind_fault(r: Rule, place: Place, p: usize) -> Result<(), Broken>
    requires { p ≤ 2500000 }
    ensures { result ≡ kind_fault r place p }
{
    match r.kind {
        0 => {
            place.test(r.pick == 0, Fault::PickNotZero, p + 4)?;
            range_fault(r, place, p)
        }
        1 => {
            pick_fault(r, place, p)?;
            range_fault(r, place, p)
        }
        2 => {
            pick_fault(r, place, p)?;
            high_fault(r, place, p)
        }
        3 => {
            pick_fault(r, place, p)?;
            place.test(r.low <= r.high, Fault::LowAboveHigh, p + 9)
        }
        _ => place.test(false, Fault::UnknownKind, p + 3),
    }
}

// The rule of a place, at p.
fn rule_fault(counts: Counts, r: Rule, place: Place, p: usize) -> Result<(), Broken>
    requires { p ≤ 2500000 }
    ensures { result ≡ rule_fault counts r place p }
{
    place.test(r.left < counts.nonterminals, Fault::UnknownLeftSide, p)?;
    place.test(r.len <= 15, Fault::ManyItems, p + 2)?;
    kind_fault(r, place, p)
}

// The first broken rule of those that are counted, the first of them at p.
pub(super) fn rules_fault(table: &[u8], counts: Counts, p: usize) -> Result<(), Broken>
    requires { (p ≤ 70000) × (p + 17 * counts.rules ≤ length table.now) }
    ensures { result ≡ rules_fault counts counts.rules table.now 0 p }
{
    for i in 0..usize::from(counts.rules) {
        let at = p + 17 * i;
        let place = Place {
            field: 2,
            record: Some(i),
        };
        rule_fault(counts, rule_at(table, at), place, at)?;
    }
    Ok(())
}
