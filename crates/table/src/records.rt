// The records that fill a field of a table file, of either kind: their check, and the place of a pair's record.
ghost use Rattle.std.specs.Prelude.{◌≡◌, List, ℕ, ◌+◌, ◌<◌, ◌≤◌, Bool, length};
ghost use Rattle.meaning.specs.TableRight.{Format, field_right};
ghost use Rattle.meaning.specs.declared.Counts.{Counts};
ghost use Rattle.table.specs.Records.{RecordLaws, record_test, Inside, Ordered, seek};

use super::reading::{key_at, pair};
use meaning::Counts;

// A kind of record, of which each begins with the pair by which they ascend.
pub trait Record {
    ghost size: { List ℕ → ℕ → ℕ };

    ghost format: { List ℕ → Counts → Format ℕ };

    ghost laws: { RecordLaws size format };

    // How long the record at p is.
    fn size(table: &[u8], p: usize) -> usize
        requires { p ≤ 250000 }
        ensures { (result ≡ size table.now p) × (result ≤ 517) };

    // Whether the record at p, which lies in the bytes, is right.
    fn right(table: &[u8], counts: Counts, p: usize) -> bool
        requires { p + size table.now p ≤ length table.now }
        ensures { result ≡ (format table.now counts).right p };
}

// Whether the record at p ends by end, is right, and has a key of at least low.
fn record_test<R: Record>(table: &[u8], counts: Counts, end: usize, low: usize, p: usize) -> bool
    requires { Inside table.now p end }
    ensures { result ≡ record_test (R.format table.now counts) end low p }
{
    if end < p + R::size(table, p) {
        return false;
    }
    R::right(table, counts, p) && low <= key_at(table, p)
}

// Whether the records that fill the bytes from `from` to end are right.
pub(super) fn records_right<R: Record>(
    table: &[u8],
    counts: Counts,
    from: usize,
    end: usize,
) -> bool
    requires { (end ≤ length table.now) × (end ≤ 65536) }
    ensures { result ≡ field_right (R.format table.now counts) end 0 from }
{
    let mut low: usize = 0;
    let mut at = from;
    while at < end {
        if !record_test::<R>(table, counts, end, low, at) {
            return false;
        }
        low = key_at(table, at) + 1;
        at += R::size(table, at);
    }
    true
}

// Where the record of the pair of a high and a low number begins; records ascend, so a greater key ends the search.
pub(super) fn find<R: Record>(
    table: &[u8],
    high: u16,
    low: u16,
    from: usize,
    end: usize,
) -> Option<usize>
    requires { Ordered (R.format table.now) table.now from end }
    ensures is { (c : Counts) → result ≡ seek (R.format table.now c) Some None high low end from }
    ensures inside { (p : ℕ) → result ≡ Some p → p + R.size table.now p ≤ length table.now }
{
    let wanted = pair(high, low);
    let mut at = from;
    while at < end {
        let key = key_at(table, at);
        if wanted <= key {
            if wanted == key {
                return Some(at);
            }
            return None;
        }
        at += R::size(table, at);
    }
    None
}
