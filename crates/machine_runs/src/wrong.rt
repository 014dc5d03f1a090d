// Calls with a work area or a list of a wrong length, after a start: answer 1 comes before every other, and nothing is written.
use super::listed::{ENTRY, RECORD};
use super::{CLASSES, ask, listed, say_start};
use console::{State, Work};
use machine::Machine;
use meaning::HEIGHTS;
use std::io;

type ShortWork = [u8; Machine::WORK_LENGTH - 1];

fn feed_short_work(
    rt: &impl Print,
    table: &[u8],
    state: &mut State,
    work: &mut ShortWork,
) -> io::Result<()> {
    let word = listed::term(3, 9, 0, 1);
    let fed = lending::feed_listed(table, state, work, word, [RECORD; Machine::ERRORS]);
    print!(rt; "  feed")?;
    listed::say_fed(rt, fed.answer)?;
    listed::say_record(rt, ": ", fed.errors[0])?;
    print!(rt; "; work {}", work[0])?;
    println!(rt; " .. {}", work[Machine::WORK_LENGTH - 2])
}

// One byte is missing from the work area: every call that has one.
fn short_work(rt: &impl Print, table: &[u8], state: &mut State) -> io::Result<()> {
    println!(rt; "a work area that is too short")?;
    let mut work = [9; Machine::WORK_LENGTH - 1];
    say_start(rt, Machine::start(table, state, &mut work))?;
    ask(rt, table, state, &mut work, &[3])?;
    feed_short_work(rt, table, state, &mut work)
}

// One place is missing from the list of errors.
fn short_errors(
    rt: &impl Print,
    table: &[u8],
    state: &mut State,
    work: &mut Work,
) -> io::Result<()> {
    print!(rt; "a list of errors that is too short\n  feed")?;
    work[0] = 9;
    let word = listed::term(3, 9, 0, 1);
    let fed = lending::feed_listed(table, state, work, word, [RECORD; Machine::ERRORS - 1]);
    listed::say_fed(rt, fed.answer)?;
    listed::say_record(rt, ": ", fed.errors[0])?;
    listed::say_record(rt, " .. ", fed.errors[Machine::ERRORS - 2])?;
    listed::say_work(rt, work)
}

// One place is missing from the list of entries.
fn short_entries(rt: &impl Print, table: &[u8], state: &State) -> io::Result<()> {
    print!(rt; "a list of entries that is too short\n  stack 0")?;
    let read = lending::stack_listed(table, state, 0, [ENTRY; HEIGHTS - 1]);
    listed::say_read(rt, read.answer)?;
    listed::say_entry(rt, ": ", read.entries[0])?;
    listed::say_entry(rt, " .. ", read.entries[HEIGHTS - 2])?;
    println!(rt)
}

// The state is that of a new line, and is so at the end.
pub fn lengths(
    rt: &impl Print,
    table: &[u8],
    state: &mut State,
    work: &mut Work,
) -> io::Result<()> {
    println!(rt; "wrong lengths")?;
    listed::start(rt, table, state, work)?;
    short_work(rt, table, state)?;
    short_errors(rt, table, state, work)?;
    short_entries(rt, table, state)?;
    println!(rt; "and then")?;
    ask(rt, table, state, work, &CLASSES)
}
