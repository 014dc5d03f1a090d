// Applies the terms of short lines, each to the first reading that the term before it left, and says what comes about.
// The tables: T1 and T4 of the known runs; `twice`, T1 with rule 0 twice in one record; `join`, T1 with a Join that is too big as rule 2; `wrap`, T1 with the greatest mark in rule 3.
#![tactic(auto)]

ghost use Rattle.std.specs.Prelude.{◌≡◌, true};
ghost use Rattle.applying_runs.specs.Found.{Found};

use actions::errors::get_error;
use actions::{Counts, Top};
use cells::Cell;
use host::GoingOn;
use meaning::{CellNo, ErrorRecord, MAX_CHAINS, MAX_ERRORS, MAX_READINGS, StateNo, Term};
use state::{RESULTS_AT, Slot, Work};
use std::io;
use table::Table;

// A line: what is said above it, its table file, the word's value.
#[derive(Clone, Copy)]
struct Case {
    title: &'static str,
    table: &'static str,
    value: u32,
}

// Lines of the known runs, and four more.
const CASES: [Case; 8] = [
    Case {
        title: "P3: T1, `3 9 0 1` and `4 0 1 2`: a month and a day",
        table: "T1",
        value: 9,
    },
    Case {
        title: "P4: T1, `3 20 0 1` and `4 0 1 2`: no month",
        table: "T1",
        value: 20,
    },
    Case {
        title: "P5: T1, `3 40 0 1` and `4 0 1 2`: neither",
        table: "T1",
        value: 40,
    },
    Case {
        title: "P10: T4, `3 9 0 1`, then `4 0 1 2`: the empty rule's chain is refused, the shift is not",
        table: "T4",
        value: 9,
    },
    Case {
        title: "rule 0 twice in a record: each is its own chain",
        table: "twice",
        value: 9,
    },
    Case {
        title: "rule 0 twice in a record: each is its own refusal",
        table: "twice",
        value: 20,
    },
    Case {
        title: "a Join above 4294967295 refuses, with the mark before it",
        table: "join",
        value: 9,
    },
    Case {
        title: "a mark that wraps: 2 and 4294967295 are 1",
        table: "wrap",
        value: 9,
    },
];

// The states of a stack, the lowest first.
fn print_states(rt: &impl Print, work: &Work, height: u16, top: CellNo) -> io::Result<()> {
    if height == 0 || state::WORK_CELLS <= top.0 {
        return Ok(());
    }
    let x = cells::get_cell(work, top);
    print_states(rt, work, height - 1, x.parent)?;
    if 1 < height {
        print!(rt; ",")?;
    }
    print!(rt; "{}", x.state.0)
}

// The entries of a stack, top first: state; value; start, end.
fn print_entries(rt: &impl Print, work: &Work, height: u16, top: CellNo) -> io::Result<()> {
    if height == 0 || state::WORK_CELLS <= top.0 {
        return Ok(());
    }
    let x = cells::get_cell(work, top);
    print!(rt; " ({}; {}; {},{})", x.state.0, x.value, x.start, x.end)?;
    print_entries(rt, work, height - 1, x.parent)
}

fn height_of(work: &Work, c: CellNo) -> u16 {
    if state::WORK_CELLS <= c.0 {
        return 0;
    }
    cells::get_cell(work, c).height
}

// The reading that a slot of the list of results means.
fn reading_of(work: &Work, slot: Slot) -> Top {
    Top {
        cell: slot.top,
        height: height_of(work, slot.top),
        mark: slot.mark,
    }
}

// The results, of which a list has room for so many.
fn print_results(rt: &impl Print, work: &Work, count: u16) -> io::Result<()> {
    for i in 0..count.min(MAX_READINGS) {
        let reading = reading_of(work, state::get_slot(work, RESULTS_AT, i));
        print!(rt; "  [")?;
        print_states(rt, work, reading.height, reading.cell)?;
        print!(rt; "] mark {}, entries", reading.mark)?;
        print_entries(rt, work, reading.height, reading.cell)?;
        println!(rt)?;
    }
    Ok(())
}

// The error records, of which there is room for so many.
fn print_errors(rt: &impl Print, work: &Work, count: u16) -> io::Result<()> {
    for i in 0..count.min(MAX_ERRORS as u16) {
        let ErrorRecord { rule, state, mark } = get_error(work, i);
        println!(rt; "  error: rule {rule}, state {}, mark {mark}", state.0)?;
    }
    Ok(())
}

// Whether the reading stands in cells of lower numbers than the next one, `cells`, and those are few.
#[tactic(auto, using(crate::proofs::Finding::is_found))]
fn found(work: &Work, reading: Top, cells: u16) -> bool
    ensures { result ≡ true → Found work.now reading cells }
{
    cells <= state::STATE_CELLS
        && reading.height != 0
        && reading.height <= meaning::MAX_HEIGHT
        && cells::linked_from(
            work,
            cells,
            meaning::MAX_STATES,
            reading.height,
            reading.cell,
        )
}

fn nothing_yet(cells: u16) -> Counts
    ensures { result ≡ record { cells = cells; results = 0; errors = 0 } }
{
    Counts {
        cells,
        results: 0,
        errors: 0,
    }
}

// Plans and applies a reading that was found.
fn apply_found(
    rt: &impl Print,
    table: &Table,
    work: &mut Work,
    cells: u16,
    reading: Top,
    term: Term,
) -> io::Result<Counts>
    requires { Found work.old reading cells }
{
    let none = nothing_yet(cells);
    match applying::plan_reading(table, work, MAX_CHAINS, term.class, reading, 0) {
        Err(refusal) => {
            println!(rt; "  refused, {}", refusal.number())?;
            Ok(none)
        }
        Ok(planned) => {
            println!(rt;
                "  reductions {}, chains {}",
                planned.walked, planned.chains
            )?;
            Ok(applying::apply_reading(table, work, RESULTS_AT, term, reading, none))
        }
    }
}

// Plans and applies a reading, if it is one, and says what comes about: results, then errors. Gives the next cell.
fn run_term(
    rt: &impl Print,
    table: &Table,
    work: &mut Work,
    cells: u16,
    reading: Top,
    term: Term,
) -> io::Result<u16> {
    let counts = if found(work, reading, cells) {
        apply_found(rt, table, work, cells, reading, term)?
    } else {
        nothing_yet(cells)
    };
    print_results(rt, work, counts.results)?;
    print_errors(rt, work, counts.errors)?;
    Ok(counts.cells)
}

// Start's reading, [1], in cell 0.
fn start(work: &mut Work) -> Top {
    let cell = CellNo(0);
    cells::put_cell(
        work,
        cell,
        Cell {
            parent: cell,
            height: 1,
            state: StateNo(1),
            value: 0,
            start: 0,
            end: 0,
        },
    );
    Top {
        cell,
        height: 1,
        mark: 0,
    }
}

// A word of class 3 from 0 to 1, then the class 4 that ends it.
fn run_line(rt: &impl Print, table: &Table, value: u32) -> io::Result<()> {
    let mut work = [0; state::WORK_LENGTH];
    let reading = start(&mut work);
    let word = Term {
        class: 3,
        value,
        start: 0,
        end: 1,
    };
    let next = run_term(rt, table, &mut work, 1, reading, word)?;
    let end = Term {
        class: 4,
        value: 0,
        start: 1,
        end: 2,
    };
    let left = reading_of(&work, state::get_slot(&work, RESULTS_AT, 0));
    run_term(rt, table, &mut work, next, left, end)?;
    Ok(())
}

fn run(rt: &HostRuntime, out: &impl Print, case: Case) -> io::Result<()> {
    let Some(mut file) = host::open(rt, case.table.as_bytes()) else {
        return Ok(());
    };
    let mut bytes = [0; 4096];
    let n = host::read_full(&mut file, &mut bytes);
    println!(out; "{}", case.title)?;
    match Table::check(&bytes[..n]) {
        Some(table) => run_line(out, &table, case.value),
        None => println!(out; "  wrong table"),
    }
}

fn run_all(rt: &HostRuntime, out: &impl Print) -> io::Result<()> {
    for case in CASES {
        run(rt, out, case)?;
    }
    Ok(())
}

// What cannot be written is passed over, and the exit status is 0.
fn main(rt: HostRuntime) {
    let out = GoingOn {
        rt: &rt,
        says: false,
    };
    let _ = run_all(&rt, &out);
}
