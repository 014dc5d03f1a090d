// The frame of a table file: its length, the five fields, the counts.
ghost use Rattle.std.specs.Prelude.{◌≡◌, ◌≤◌};
ghost use Rattle.faults.specs.Frame.{count_fault, counts_fault, tag_fault, head_fault, back_fault, front_fault, frame_fault};

use super::{Broken, FILE, Fault, Place};
use meaning::{Counts, MAX_CLASSES, MAX_NONTERMINALS, MAX_RULES, MAX_STATES, View};
use table::reading::{byte_at, u16_at};

const MAX_BYTES: usize = 65536;

// A count of field 1: not below `least`, nor above `most`.
fn count_fault(
    n: u16,
    least: u16,
    few: Fault,
    most: u16,
    many: Fault,
    byte: usize,
) -> Result<(), Broken>
    ensures { result ≡ count_fault n least few most many byte }
{
    let place = Place { field: 1, ..FILE };
    place.test(least <= n, few, byte)?;
    place.test(n <= most, many, byte)
}

fn counts_fault(counts: Counts) -> Result<(), Broken>
    ensures { result ≡ counts_fault counts }
{
    count_fault(
        counts.states,
        1,
        Fault::FewStates,
        MAX_STATES,
        Fault::ManyStates,
        3,
    )?;
    count_fault(
        counts.classes,
        4,
        Fault::FewClasses,
        MAX_CLASSES,
        Fault::ManyClasses,
        5,
    )?;
    count_fault(
        counts.nonterminals,
        1,
        Fault::FewNonterminals,
        MAX_NONTERMINALS,
        Fault::ManyNonterminals,
        7,
    )?;
    let place = Place { field: 1, ..FILE };
    place.test(counts.rules <= MAX_RULES, Fault::ManyRules, 9)
}

// The tag of a field.
fn tag_fault(table: &[u8], i: usize, field: u8) -> Result<(), Broken>
    ensures { result ≡ tag_fault table.now i field }
{
    let place = Place { field, ..FILE };
    place.test(byte_at(table, i) == field, Fault::WrongTag, i)
}

// The tag of a field, and the length that it has to have.
fn head_fault(table: &[u8], i: usize, field: u8, length: usize) -> Result<(), Broken>
    requires { i ≤ 200000 }
    ensures { result ≡ head_fault table.now i field length }
{
    tag_fault(table, i, field)?;
    let said = usize::from(u16_at(table, i + 1));
    let place = Place { field, ..FILE };
    place.test(said == length, Fault::WrongLength, i + 1)
}

// The last field, whose tag is at i, with nothing behind it.
fn back_fault(table: &[u8], i: usize) -> Result<(), Broken>
    requires { i ≤ 200000 }
    ensures { result ≡ back_fault table.now i }
{
    head_fault(table, i, 5, 1)?;
    let place = Place { field: 5, ..FILE };
    place.test(byte_at(table, i + 3) <= 1, Fault::WrongFlag, i + 3)?;
    place.test(table.len() == i + 4, Fault::WrongEnd, i + 4)
}

// Fields 1 and 2: their lengths are known.
fn front_fault(table: &[u8], counts: Counts) -> Result<(), Broken>
    ensures { result ≡ front_fault table.now counts }
{
    FILE.test(table.len() <= MAX_BYTES, Fault::TooLong, MAX_BYTES)?;
    head_fault(table, 0, 1, 8)?;
    counts_fault(counts)?;
    head_fault(table, 11, 2, 17 * usize::from(counts.rules))
}

pub(super) fn frame_fault(table: &[u8], view: View) -> Result<(), Broken>
    requires { view.gotos.end ≤ 200000 }
    ensures { result ≡ frame_fault table.now view }
{
    front_fault(table, view.counts)?;
    tag_fault(table, view.rules.end, 3)?;
    tag_fault(table, view.actions.end, 4)?;
    back_fault(table, view.gotos.end)
}
