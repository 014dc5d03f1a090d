// Answers a replay script on standard input: each command is a call of the machine; what it answers is a line, with the errors and the readings below it.
#![tactic(auto)]

use console::{blanks, lines, saying};
use current::Current;
use std::io;

mod answers;
mod commands;
mod current;
mod tables;

// The lines, one after the other, as long as what is said can be written; the loop has more turns than any script uses up.
fn run(rt: &HostRuntime) -> io::Result<()> {
    let mut current = Current::new();
    let mut piece = [0; lines::PIECE];
    let mut line = [0; lines::LINE];
    let mut rest = lines::nothing();
    for _ in 0..u64::MAX {
        let Some(next) = lines::next_line(rt, &mut piece, rest, &mut line) else {
            break;
        };
        rest = next.rest;
        match next.length {
            Some(length) => {
                let line = blanks::trimmed(lines::first(&line, length));
                if !commands::skipped(line) {
                    current.answer(rt, line)?;
                }
            }
            None => current.too_long(rt, blanks::trimmed(&line))?,
        }
    }
    Ok(())
}

fn main(rt: HostRuntime) {
    saying::end(&rt, run(&rt));
}
