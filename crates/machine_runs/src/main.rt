// Makes every call of the machine, on tables, states, lengths and classes that are right and that are not.
#![tactic(auto)]

use console::{State, Work};
use host::GoingOn;
use machine::Machine;
use meaning::{QuestionAnswer, StartAnswer, StartNumbers};
use std::io;

mod listed;
mod wrong;

fn say_start(rt: &impl Print, answer: StartAnswer) -> io::Result<()> {
    print!(rt; "  start")?;
    println!(rt; " {}", StartNumbers::from(answer).answer)
}

fn say_question(rt: &impl Print, answer: QuestionAnswer) -> io::Result<()> {
    match answer {
        Ok(true) => println!(rt; " yes"),
        Ok(false) => println!(rt; " no"),
        Err(refusal) => println!(rt; " {}", refusal.number()),
    }
}

// The questions of a state: whether it takes each of these classes, can end and can recover.
fn ask(
    rt: &impl Print,
    table: &[u8],
    state: &[u8],
    work: &mut [u8],
    classes: &[u16],
) -> io::Result<()> {
    for class in classes {
        print!(rt; "  takes {class}")?;
        say_question(rt, Machine::takes(table, state, work, *class))?;
    }
    print!(rt; "  can end")?;
    say_question(rt, Machine::can_end(table, state, work))?;
    print!(rt; "  can recover")?;
    say_question(rt, Machine::can_recover(table, state, work))
}

// Classes that are none of a term, those of a word and of an end, and one that no table has.
const CLASSES: [u16; 4] = [2, 3, 4, 64];

// A buffer of zeros is a state without readings.
fn consumed(rt: &impl Print, table: &[u8], work: &mut Work) -> io::Result<()> {
    println!(rt; "consumed")?;
    let mut state = [0; Machine::STATE_LENGTH];
    ask(rt, table, &state, work, &CLASSES)?;
    listed::refused(rt, table, &mut state, work)
}

// Where a state counts its readings: the lower of two bytes.
const COUNT: usize = 18529;

// One number of the state is damaged: 17 readings.
fn damaged(rt: &impl Print, table: &[u8], state: &mut State, work: &mut Work) -> io::Result<()> {
    println!(rt; "17 readings")?;
    state[COUNT] = 17;
    ask(rt, table, state, work, &CLASSES)?;
    listed::refused(rt, table, state, work)
}

// One byte is missing.
fn short(rt: &impl Print, table: &[u8], work: &mut Work) -> io::Result<()> {
    println!(rt; "a state buffer that is too short")?;
    let mut state = [0; Machine::STATE_LENGTH - 1];
    say_start(rt, Machine::start(table, &mut state, work))?;
    ask(rt, table, &state, work, &CLASSES)?;
    listed::refused(rt, table, &mut state, work)
}

// The line's start comes after a work area of any content.
fn run_table(rt: &impl Print, table: &[u8]) -> io::Result<()> {
    let mut state = [9; Machine::STATE_LENGTH];
    let mut work = [9; Machine::WORK_LENGTH];
    say_start(rt, Machine::start(table, &mut state, &mut work))?;
    ask(rt, table, &state, &mut work, &CLASSES)?;
    consumed(rt, table, &mut work)?;
    damaged(rt, table, &mut state, &mut work)?;
    short(rt, table, &mut work)?;
    listed::lines(rt, table, &mut state, &mut work)?;
    wrong::lengths(rt, table, &mut state, &mut work)
}

fn run(rt: &HostRuntime, out: &impl Print) -> io::Result<()> {
    for name in ["T1", "T2", "T4", "cut"] {
        if let Some(mut file) = host::open(rt, name.as_bytes()) {
            let mut bytes = [0; 4096];
            let n = host::read_full(&mut file, &mut bytes);
            println!(out; "{name}")?;
            run_table(out, &bytes[..n])?;
        }
    }
    Ok(())
}

// Each write that fails is said on standard error, and the exit status is 0.
fn main(rt: HostRuntime) {
    let out = GoingOn {
        rt: &rt,
        says: true,
    };
    let _ = run(&rt, &out);
}
