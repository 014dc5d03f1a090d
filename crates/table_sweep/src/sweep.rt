// Every proper prefix of T1, and T1 with each byte changed to each other value: how many of them are right, and which.
ghost use Rattle.std.specs.Prelude.{◌≡◌, ◌<◌, ◌≤◌};
ghost use Rattle.meaning.specs.TableRight.{table_ok};

use std::io;

fn is_right(bytes: &[u8]) -> bool
    ensures { result ≡ table_ok bytes.now }
{
    table::check_table(bytes).is_some()
}

// A line for each right prefix, and one for all.
pub fn check_prefixes(rt: &impl Print, table: &[u8]) -> io::Result<()> {
    let mut right: usize = 0;
    for n in 0..table.len() {
        if is_right(&table[..n]) {
            println!(rt; "T1, bytes kept: {n}, right")?;
            right += 1;
        }
    }
    println!(rt; "T1, cut short: {right} of {} right", table.len())
}

// How many of the 255 other values of byte i leave the table right.
fn right_changes(table: [u8; 167], i: usize) -> usize
    requires { i < 167 }
    ensures { result ≤ 255 }
{
    let mut changed = table;
    let mut right: usize = 0;
    for more in 1..=255 {
        changed[i] = table[i].wrapping_add(more);
        right += usize::from(is_right(&changed));
    }
    right
}

// One line for each byte that has other right values, and one for all.
pub fn check_changes(rt: &impl Print, table: [u8; 167]) -> io::Result<()> {
    let mut right: usize = 0;
    for i in 0..table.len() {
        let here = right_changes(table, i);
        if 0 < here {
            println!(rt; "T1, byte {i} changed: {here} of 255 right")?;
        }
        right += here;
    }
    println!(rt;
        "T1, one byte changed: {right} of {} right",
        255 * table.len()
    )
}
