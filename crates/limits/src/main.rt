// Walks the limits of a feed, on either side of each, and says what is answered and what is left.
#![tactic(auto)]

use by_value::reading;
use console::{State, Work, terms};
use host::GoingOn;
use machine::Machine;
use meaning::{HEIGHTS, StackNumbers, Term};
use std::io;

// A case: what is said before the answer, its table file, how many words are fed first, and the class of the term after them.
#[derive(Clone, Copy)]
struct Case {
    title: &'static str,
    table: &'static str,
    words: u16,
    class: u16,
}

// What most cases have in common: class 4 after one word.
const USUAL: Case = Case {
    title: "",
    table: "",
    words: 1,
    class: 4,
};

const CASES: [Case; 13] = [
    Case {
        title: "a shift to height 64",
        table: "height",
        words: 62,
        class: 3,
        ..USUAL
    },
    Case {
        title: "a shift to height 65",
        table: "height",
        words: 63,
        class: 3,
        ..USUAL
    },
    Case {
        title: "an empty rule to 63, a shift to height 64",
        table: "empty",
        words: 61,
        ..USUAL
    },
    Case {
        title: "an empty rule to 64, a shift to height 65",
        table: "empty",
        words: 62,
        ..USUAL
    },
    Case {
        title: "an empty rule to height 65",
        table: "empty",
        words: 63,
        ..USUAL
    },
    Case {
        title: "a chain of 32 reductions",
        table: "chain-32",
        ..USUAL
    },
    Case {
        title: "a chain of 33 reductions",
        table: "chain-33",
        ..USUAL
    },
    Case {
        title: "a walk of 1,024 reductions",
        table: "walk-1024",
        ..USUAL
    },
    Case {
        title: "a walk of 1,025 reductions",
        table: "walk-1025",
        ..USUAL
    },
    Case {
        title: "16 chains",
        table: "chains-16",
        ..USUAL
    },
    Case {
        title: "17 chains",
        table: "chains-17",
        ..USUAL
    },
    Case {
        title: "an empty rule that leads on, from height 1",
        table: "empty",
        words: 0,
        ..USUAL
    },
    Case {
        title: "an empty rule that leads to itself, from height 1",
        table: "empty-loop",
        words: 0,
        class: 3,
        ..USUAL
    },
];

fn term(class: u16) -> Term {
    Term {
        class,
        value: 7,
        start: 0,
        end: 1,
    }
}

// The first reading's height; 0 if there is no reading.
fn height(table: &[u8], state: &State) -> u16 {
    let read = reading::stack_of(table, state, 0, HEIGHTS);
    StackNumbers::from(read.answer).height
}

// So many words, of which nothing is said, and one term more.
fn run_table(rt: &impl Print, table: &[u8], case: Case) -> io::Result<()> {
    let mut state: State = [0; Machine::STATE_LENGTH];
    let mut work: Work = [0; Machine::WORK_LENGTH];
    if Machine::start(table, &mut state, &mut work).is_err() {
        return println!(rt; ": wrong table");
    }
    for _ in 0..case.words {
        terms::feed_term(table, &mut state, &mut work, term(3));
    }
    let traced = terms::feed_term(table, &mut state, &mut work, term(case.class));
    let numbers = traced.numbers;
    print!(rt; ": answer {}", numbers.answer)?;
    print!(rt; ", reductions {}", numbers.walked)?;
    print!(rt; "; left: readings {}", traced.readings)?;
    println!(rt; ", height {}", height(table, &state))
}

fn run(rt: &HostRuntime, out: &impl Print) -> io::Result<()> {
    for case in CASES {
        if let Some(mut file) = host::open(rt, case.table.as_bytes()) {
            let mut bytes = [0; 4096];
            let n = host::read_full(&mut file, &mut bytes);
            print!(out; "{}", case.title)?;
            run_table(out, &bytes[..n], case)?;
        }
    }
    Ok(())
}

// Each write that fails is said on standard error, and the exit status is 0.
fn main(rt: HostRuntime) {
    let out = GoingOn {
        rt: &rt,
        says: true,
    };
    let _ = run(&rt, &out);
}
