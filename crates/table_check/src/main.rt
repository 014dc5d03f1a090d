// Says of each table file that the arguments name whether it is right, and if not the first rule that it breaks, with field, record and byte.
#![tactic(auto)]

use faults::Broken;
use host::GoingOn;
use meaning::View;
use std::env::Env;
use std::io;

fn print_view(rt: &impl Print, view: View) -> io::Result<()> {
    let counts = view.counts;
    print!(rt; ", states {}, classes {}", counts.states, counts.classes)?;
    print!(rt;
        ", nonterminals {}, rules {}",
        counts.nonterminals, counts.rules
    )?;
    if view.recovers {
        print!(rt; ", error class used")?;
    }
    Ok(())
}

fn print_right(rt: &impl Print, bytes: &[u8]) -> io::Result<()> {
    print!(rt; ": right")?;
    if let Some(view) = table::check_table(bytes) {
        print_view(rt, view)?;
    }
    Ok(())
}

// Field 0 is the file.
fn print_broken(rt: &impl Print, broken: Broken, length: usize) -> io::Result<()> {
    let Broken {
        fault,
        field,
        record,
        byte,
    } = broken;
    print!(rt; ": wrong, {fault}: ")?;
    match field {
        0 => print!(rt; "the file")?,
        _ => print!(rt; "field {field}")?,
    }
    if let Some(record) = record {
        print!(rt; ", record {record}")?;
    }
    print!(rt; ", byte {byte}")?;
    if length <= byte {
        print!(rt; ", past the end of the file")?;
    }
    Ok(())
}

// Whether the line of a file could be written is told by its end.
fn print_check(rt: &HostRuntime, name: &[u8], bytes: &[u8]) -> io::Result<()> {
    let out = GoingOn { rt, says: false };
    out.write_all(name)?;
    match faults::diagnose(bytes) {
        Ok(()) => print_right(&out, bytes)?,
        Err(broken) => print_broken(&out, broken, bytes.len())?,
    }
    println!(rt)
}

// A file that cannot be read is said on standard error; the next one is checked all the same.
// There is room for more bytes than a right table file has: a longer one is cut, and wrong all the same.
fn check_file(rt: &HostRuntime, name: &[u8]) -> io::Result<()> {
    let Some(mut file) = host::open(rt, name) else {
        return Ok(());
    };
    let mut bytes = [0u8; 70000];
    let n = host::read_full(&mut file, &mut bytes);
    print_check(rt, name, &bytes[..n])
}

fn check_argument(rt: &HostRuntime, i: usize) -> io::Result<()> {
    let mut name = [0u8; 4096];
    let n = rt.arg(i, &mut name).unwrap_or(0);
    check_file(rt, &name[..n])
}

fn check_arguments(rt: &HostRuntime, count: usize) -> io::Result<()> {
    for i in 1..count {
        check_argument(rt, i)?;
    }
    Ok(())
}

// The first line whose end cannot be written ends it, and standard error says why.
fn main(rt: HostRuntime) {
    let count = host::arg_count(&rt);
    if count < 2 {
        let _ = println!(&rt; "table_check FILE..: says of each table file what is wrong with it");
        return;
    }
    if let Err(error) = check_arguments(&rt, count) {
        host::fail(&rt, b"standard output", &error);
    }
}
