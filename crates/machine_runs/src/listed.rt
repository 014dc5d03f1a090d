// The calls that fill a lent list of records, made through `lending`: each list holds other records before, and the work area is not zero.
use console::{State, Work};
use machine::Machine;
use meaning::{
    Entry, ErrorRecord, FeedAnswer, FeedNumbers, HEIGHTS, StackAnswer, StackNumbers, StartNumbers,
    StateNo, Term,
};
use std::io;

// What the lists hold before.
pub const RECORD: ErrorRecord = ErrorRecord {
    rule: 7,
    state: StateNo(7),
    mark: 7,
};

pub const ENTRY: Entry = Entry {
    state: StateNo(7),
    value: 7,
    start: 7,
    end: 7,
};

pub fn term(class: u16, value: u32, start: u32, end: u32) -> Term {
    Term {
        class,
        value,
        start,
        end,
    }
}

pub fn say_record(rt: &impl Print, before: &str, record: ErrorRecord) -> io::Result<()> {
    let state = record.state;
    print!(rt; "{before}{}", record.rule)?;
    print!(rt; ",{}", state.0)?;
    print!(rt; ",{}", record.mark)
}

// The first places and the last.
fn say_records(rt: &impl Print, errors: [ErrorRecord; Machine::ERRORS]) -> io::Result<()> {
    say_record(rt, ": ", errors[0])?;
    say_record(rt, " ", errors[1])?;
    say_record(rt, " ", errors[2])?;
    say_record(rt, " .. ", errors[Machine::ERRORS - 1])
}

pub fn say_entry(rt: &impl Print, before: &str, entry: Entry) -> io::Result<()> {
    let state = entry.state;
    print!(rt; "{before}{}", state.0)?;
    print!(rt; ",{}", entry.value)?;
    print!(rt; ",{}", entry.start)?;
    print!(rt; ",{}", entry.end)
}

// The first places and the last.
fn say_entries(rt: &impl Print, entries: [Entry; HEIGHTS]) -> io::Result<()> {
    say_entry(rt, ": ", entries[0])?;
    say_entry(rt, " ", entries[1])?;
    say_entry(rt, " ", entries[2])?;
    say_entry(rt, " ", entries[3])?;
    say_entry(rt, " .. ", entries[HEIGHTS - 1])
}

// The answer, the count of error records, the reductions walked.
pub fn say_fed(rt: &impl Print, answer: FeedAnswer) -> io::Result<()> {
    let numbers = FeedNumbers::from(answer);
    print!(rt; " gives {}", numbers.answer)?;
    print!(rt; " {}", numbers.errors)?;
    print!(rt; " {}", numbers.walked)
}

// The answer, the height, the mark.
pub fn say_read(rt: &impl Print, answer: StackAnswer) -> io::Result<()> {
    let numbers = StackNumbers::from(answer);
    print!(rt; " gives {}", numbers.answer)?;
    print!(rt; " {}", numbers.height)?;
    print!(rt; " {}", numbers.mark)
}

pub fn say_work(rt: &impl Print, work: &Work) -> io::Result<()> {
    let is = if work.iter().all(|byte| *byte == 0) {
        "zero"
    } else {
        "not zero"
    };
    println!(rt; "; work {is}")
}

fn feed(
    rt: &impl Print,
    table: &[u8],
    state: &mut [u8],
    work: &mut Work,
    term: Term,
) -> io::Result<()> {
    print!(rt; "  feed {}", term.class)?;
    print!(rt; " {}", term.value)?;
    print!(rt; " {}", term.start)?;
    print!(rt; " {}", term.end)?;
    work[0] = 9;
    work[Machine::WORK_LENGTH - 1] = 9;
    let fed = lending::feed_listed(table, state, work, term, [RECORD; Machine::ERRORS]);
    say_fed(rt, fed.answer)?;
    say_records(rt, fed.errors)?;
    say_work(rt, work)
}

fn stack(rt: &impl Print, table: &[u8], state: &[u8], number: u16) -> io::Result<()> {
    print!(rt; "  stack {number}")?;
    let read = lending::stack_listed(table, state, number, [ENTRY; HEIGHTS]);
    say_read(rt, read.answer)?;
    say_entries(rt, read.entries)?;
    println!(rt)
}

// Both calls, on a state that has no stack to read out.
pub fn refused(rt: &impl Print, table: &[u8], state: &mut [u8], work: &mut Work) -> io::Result<()> {
    stack(rt, table, state, 0)?;
    feed(rt, table, state, work, term(3, 9, 0, 1))
}

pub fn start(rt: &impl Print, table: &[u8], state: &mut State, work: &mut Work) -> io::Result<()> {
    let answer = Machine::start(table, state, work);
    println!(rt; "  start gives {}", StartNumbers::from(answer).answer)
}

// A value that both rules take, then a term that no reading takes, and terms that are none.
fn both(rt: &impl Print, table: &[u8], state: &mut State, work: &mut Work) -> io::Result<()> {
    println!(rt; "both rules take 9")?;
    start(rt, table, state, work)?;
    stack(rt, table, state, 0)?;
    feed(rt, table, state, work, term(3, 9, 0, 1))?;
    stack(rt, table, state, 0)?;
    feed(rt, table, state, work, term(4, 0, 1, 2))?;
    stack(rt, table, state, 0)?;
    stack(rt, table, state, 1)?;
    feed(rt, table, state, work, term(3, 5, 2, 3))?;
    for number in 0..3 {
        stack(rt, table, state, number)?;
    }
    feed(rt, table, state, work, term(2, 5, 2, 3))?;
    feed(rt, table, state, work, term(3, 5, 3, 2))
}

fn one(rt: &impl Print, table: &[u8], state: &mut State, work: &mut Work) -> io::Result<()> {
    println!(rt; "one rule takes 20")?;
    start(rt, table, state, work)?;
    feed(rt, table, state, work, term(3, 20, 0, 1))?;
    feed(rt, table, state, work, term(4, 0, 1, 2))?;
    stack(rt, table, state, 0)
}

fn none(rt: &impl Print, table: &[u8], state: &mut State, work: &mut Work) -> io::Result<()> {
    println!(rt; "no rule takes 40")?;
    start(rt, table, state, work)?;
    feed(rt, table, state, work, term(3, 40, 0, 1))?;
    feed(rt, table, state, work, term(4, 0, 1, 2))?;
    refused(rt, table, state, work)
}

// A second word in place of the end: where the error class is used, the line recovers.
fn again(rt: &impl Print, table: &[u8], state: &mut State, work: &mut Work) -> io::Result<()> {
    println!(rt; "a word twice")?;
    start(rt, table, state, work)?;
    feed(rt, table, state, work, term(3, 9, 0, 1))?;
    feed(rt, table, state, work, term(3, 7, 2, 3))?;
    stack(rt, table, state, 0)
}

pub fn lines(rt: &impl Print, table: &[u8], state: &mut State, work: &mut Work) -> io::Result<()> {
    both(rt, table, state, work)?;
    one(rt, table, state, work)?;
    none(rt, table, state, work)?;
    again(rt, table, state, work)
}
