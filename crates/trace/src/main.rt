// Reads a table file, which its argument names, and on standard input a term a line (class, value, start, end); prints a line for each: answer, readings left, errors, reductions walked.
#![tactic(auto)]

use console::terms::Traced;
use console::{State, Work, files, lines, saying, terms, words};
use machine::Machine;
use std::env::Env;
use std::io;
use std::io::ErrorKind;

fn say_traced(rt: &impl Print, traced: Traced) -> io::Result<()> {
    let numbers = traced.numbers;
    println!(rt;
        "{} {} {} {}",
        numbers.answer, traced.readings, numbers.errors, numbers.walked
    )
}

// A line that is no term is said so in the answer's place, and leaves the state as it is.
fn trace_line(
    rt: &impl Print,
    table: &[u8],
    state: &mut State,
    work: &mut Work,
    line: &[u8],
) -> io::Result<()> {
    match words::term_at(line, 0) {
        Some(term) => say_traced(rt, terms::feed_term(table, state, work, term)),
        None => saying::not_right(rt, "not a term (class value start end): ", line),
    }
}

// The lines, one after the other, as long as what is said can be written; the loop has more turns than any input uses up.
fn trace_lines(
    rt: &HostRuntime,
    table: &[u8],
    state: &mut State,
    work: &mut Work,
) -> io::Result<()> {
    let mut piece = [0; lines::PIECE];
    let mut line = [0; lines::LINE];
    let mut rest = lines::nothing();
    for _ in 0..u64::MAX {
        let Some(next) = lines::next_line(rt, &mut piece, rest, &mut line) else {
            break;
        };
        rest = next.rest;
        match next.length {
            Some(length) => { trace_line(rt, table, state, work, lines::first(&line, length))? }
            None => println!(rt; "not a term: the line is too long")?,
        }
    }
    Ok(())
}

fn trace_table(rt: &HostRuntime, path: &[u8], table: &[u8]) {
    let mut state = [0; Machine::STATE_LENGTH];
    let mut work = [0; Machine::WORK_LENGTH];
    if Machine::start(table, &mut state, &mut work).is_err() {
        let _ = rt.stderr().write_all(path);
        let _ = eprintln!(rt; ": not a right table file");
        return;
    }
    saying::end(rt, trace_lines(rt, table, &mut state, &mut work));
}

// Room for one byte more than a table file may have, so that a longer one is not cut to a right one.
fn trace_file(rt: &HostRuntime, path: &[u8]) {
    let mut table = [0; 65537];
    if let Some(length) = files::read(rt, path, &mut table) {
        trace_table(rt, path, lines::first(&table, length));
    }
}

// The table that the argument names; without one, the sample's.
fn main(rt: HostRuntime) {
    let arguments = host::arg_count(&rt);
    if arguments < 2 {
        return trace_file(&rt, b"t1.tab");
    }
    if arguments > 2 {
        let _ = eprintln!(rt; "trace [TABLE]: one table file; the terms come on standard input");
        return;
    }
    let mut path = [0; 4096];
    match rt.arg(1, &mut path) {
        Ok(n) => trace_file(&rt, &path[..n]),
        Err(_) => {
            let error = io::Error::new(ErrorKind::InvalidFilename, "File name too long");
            host::fail(&rt, b"the table's name", &error);
        }
    }
}
