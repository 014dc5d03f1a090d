// Checks T1, T2 and T4, and T1 cut short or changed in a byte, and prints what is found.
#![tactic(auto)]

use host::GoingOn;
use std::io;

mod sweep;

fn print_check(rt: &impl Print, name: &str, bytes: &[u8]) -> io::Result<()> {
    let found = if table::check_table(bytes).is_some() {
        "right"
    } else {
        "wrong"
    };
    println!(rt; "{name}: {found}")
}

fn print_checks(rt: &impl Print) -> io::Result<()> {
    print_check(rt, "T1", &known_tables::t1())?;
    print_check(rt, "T2", &known_tables::t2())?;
    print_check(rt, "T4", &known_tables::t4())?;
    sweep::check_prefixes(rt, &known_tables::t1())?;
    sweep::check_changes(rt, known_tables::t1())
}

// What cannot be written is passed over, and the exit status is 0.
fn main(rt: HostRuntime) {
    let out = GoingOn {
        rt: &rt,
        says: false,
    };
    let _ = print_checks(&out);
}
