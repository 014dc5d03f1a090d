// A line of two terms on the sample table, and its first reading. This file is the whole program: Rattle proves it with no other.
#![tactic(auto)]

use host::GoingOn;
use machine::Machine;
use meaning::{Entry, ErrorRecord, FeedNumbers, HEIGHTS, StackNumbers, StartNumbers, Term};
use std::io;

// A word, and the end of the line.
const TERMS: [Term; 2] = [
    Term {
        class: 3,
        value: 9,
        start: 0,
        end: 1,
    },
    Term {
        class: 4,
        value: 0,
        start: 1,
        end: 2,
    },
];

fn run(rt: &impl Print) -> io::Result<()> {
    let table = known_tables::t1();
    let mut state = [0; Machine::STATE_LENGTH];
    let mut work = [0; Machine::WORK_LENGTH];
    let answer = Machine::start(&table, &mut state, &mut work);
    println!(rt; "start: answer {}", StartNumbers::from(answer).answer)?;

    let mut errors = [ErrorRecord::default(); Machine::ERRORS];
    for term in TERMS {
        let answer = Machine::feed(&table, &mut state, &mut work, term, &mut errors);
        let fed = FeedNumbers::from(answer);
        print!(rt; "feed: answer {}", fed.answer)?;
        print!(rt; ", errors {}", fed.errors)?;
        println!(rt; ", reductions {}", fed.walked)?;
    }

    let mut entries = [Entry::default(); HEIGHTS];
    let answer = Machine::stack(&table, &state, 0, &mut entries);
    let stack = StackNumbers::from(answer);
    print!(rt; "reading: answer {}", stack.answer)?;
    print!(rt; ", height {}", stack.height)?;
    println!(rt; ", mark {}", stack.mark)?;
    // The entries, the top first.
    for entry in entries.iter().take(usize::from(stack.height)) {
        print!(rt; "  state {}", entry.state.0)?;
        print!(rt; ", value {}", entry.value)?;
        print!(rt; ", from {}", entry.start)?;
        println!(rt; " to {}", entry.end)?;
    }
    Ok(())
}

// What cannot be written is said on standard error.
fn main(rt: HostRuntime) {
    let out = GoingOn {
        rt: &rt,
        says: true,
    };
    let _ = run(&out);
}
