// Compares the table files of the known runs with the bytes that the runs are proved of, and says where they differ.
#![tactic(auto)]

use host::GoingOn;
use std::io;

// How many bytes stand before the first that differs or is missing in one of the two.
fn same_at_start(file: &[u8], bytes: &[u8]) -> usize {
    file.iter()
        .zip(bytes)
        .position(|(a, b)| a != b)
        .unwrap_or(file.len().min(bytes.len()))
}

fn report(rt: &impl Print, name: &str, file: &[u8], bytes: &[u8]) -> io::Result<()> {
    if file == bytes {
        println!(rt; "{name}: {} bytes, the same", file.len())
    } else {
        println!(rt; "{name}: differs at byte {}", same_at_start(file, bytes))
    }
}

fn compare(rt: &HostRuntime, out: &impl Print, name: &str, bytes: &[u8]) -> io::Result<()> {
    let Some(mut file) = host::open(rt, name.as_bytes()) else {
        return Ok(());
    };
    let mut room = [0u8; 4096];
    let n = host::read_full(&mut file, &mut room);
    report(out, name, &room[..n], bytes)
}

fn compare_all(rt: &HostRuntime, out: &impl Print) -> io::Result<()> {
    compare(rt, out, "t1.tab", &known_tables::t1())?;
    compare(rt, out, "t2.tab", &known_tables::t2())?;
    compare(rt, out, "t4.tab", &known_tables::t4())
}

// What cannot be written is passed over, and the exit status is 0.
fn main(rt: HostRuntime) {
    let out = GoingOn {
        rt: &rt,
        says: false,
    };
    let _ = compare_all(&rt, &out);
}
