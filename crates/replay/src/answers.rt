// The calls on a state, and what is said of their answers.
use super::commands::Call;
use by_value::{reading, running};
use console::{State, Work, words};
use machine::Machine;
use meaning::{Entry, FeedNumbers, HEIGHTS, QuestionAnswer, StackNumbers, Term};
use std::io;

fn say_entry(rt: &impl Print, entry: Entry) -> io::Result<()> {
    let state = entry.state;
    print!(rt;
        " {},{},{},{}",
        state.0, entry.value, entry.start, entry.end
    )
}

// A line for the reading i, the stack's lowest entry first; whether there is that reading.
fn say_reading(rt: &impl Print, table: &[u8], state: &State, i: u16) -> io::Result<bool> {
    let read = reading::stack_of(table, state, i, HEIGHTS);
    let Ok(stack) = read.answer else {
        return Ok(false);
    };
    print!(rt; " r {}", stack.mark)?;
    let entries = read.entries;
    for entry in entries.list.iter().take(entries.count).rev() {
        say_entry(rt, *entry)?;
    }
    println!(rt)?;
    Ok(true)
}

pub fn say_state(rt: &impl Print, table: &[u8], state: &State) -> io::Result<()> {
    if !say_reading(rt, table, state, 0)? {
        return println!(rt; " consumed");
    }
    for i in 1..Machine::READINGS {
        if !say_reading(rt, table, state, i)? {
            break;
        }
    }
    Ok(())
}

fn say_term(
    rt: &impl Print,
    table: &[u8],
    state: &mut State,
    work: &mut Work,
    term: Term,
) -> io::Result<()> {
    let run = running::feed_of(table, state, work, term, Machine::ERRORS);
    let numbers = FeedNumbers::from(run.answer);
    println!(rt;
        "term {} {} {}",
        numbers.answer, numbers.errors, numbers.walked
    )?;
    let errors = run.errors;
    for record in errors.list.iter().take(errors.count) {
        let top = record.state;
        println!(rt; " e {} {} {}", record.rule, top.0, record.mark)?;
    }
    say_state(rt, table, state)
}

fn say_stack(rt: &impl Print, table: &[u8], state: &State, number: u16) -> io::Result<()> {
    let read = reading::stack_of(table, state, number, HEIGHTS);
    let numbers = StackNumbers::from(read.answer);
    print!(rt;
        "stack {} {} {}",
        numbers.answer, numbers.height, numbers.mark
    )?;
    let entries = read.entries;
    for entry in entries.list.iter().take(entries.count) {
        say_entry(rt, *entry)?;
    }
    println!(rt)
}

fn say_question(rt: &impl Print, answer: QuestionAnswer) -> io::Result<()> {
    match answer {
        Ok(true) => println!(rt; " yes"),
        Ok(false) => println!(rt; " no"),
        Err(refusal) => println!(rt; " no {}", refusal.number()),
    }
}

pub fn answer(
    rt: &impl Print,
    call: Call,
    table: &[u8],
    state: &mut State,
    work: &mut Work,
) -> io::Result<()> {
    match call {
        Call::Term(term) => say_term(rt, table, state, work, term),
        Call::Stack(number) => say_stack(rt, table, state, words::short(number)),
        Call::Takes(class) => {
            print!(rt; "takes {class}")?;
            say_question(rt, Machine::takes(table, state, work, words::short(class)))
        }
        Call::CanEnd => {
            print!(rt; "canend")?;
            say_question(rt, Machine::can_end(table, state, work))
        }
        Call::CanRecover => {
            print!(rt; "canrecover")?;
            say_question(rt, Machine::can_recover(table, state, work))
        }
    }
}
