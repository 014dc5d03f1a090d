// Walks the limits of the state buffer and prints what the check and the commit make of them: the height, the number of readings, cells shared or not, and one
// damaged number for each rule of the layout.
#![tactic(auto)]

use cells::Cell;
use host::GoingOn;
use meaning::{CellNo, MAX_HEIGHT, MAX_READINGS, StateNo};
use state::{READINGS_AT, RESULTS_AT, Slot, State, Work};
use std::io;

// The table of this walk has so many states; every entry has the last one.
const STATES: u16 = 9;

// Another number at a byte of the state, and what that is.
#[derive(Clone, Copy)]
struct Damage {
    what: &'static str,
    at: usize,
    value: u16,
}

// A number for each rule of the layout. The state has one reading, over the cells 0, 1 and 2; beyond them stand cells of earlier states, as 129 with the height 2:
// only its number is wrong.
const BROKEN: [Damage; 8] = [
    Damage {
        what: "17 readings",
        at: state::COUNT_AT,
        value: 17,
    },
    Damage {
        what: "1025 cells in use",
        at: state::USED_AT,
        value: 1025,
    },
    Damage {
        what: "a top that is not below the cells in use",
        at: READINGS_AT,
        value: 3,
    },
    Damage {
        what: "a top of height 0",
        at: 38,
        value: 0,
    },
    Damage {
        what: "a top of height 65",
        at: 38,
        value: 65,
    },
    Damage {
        what: "heights that do not fall by one",
        at: 20,
        value: 1,
    },
    Damage {
        what: "a parent that is not below the cells in use",
        at: 36,
        value: 129,
    },
    Damage {
        what: "a state that the table lacks",
        at: 4,
        value: STATES,
    },
];

// What the check does not look at; and no reading at all.
const UNREAD: [Damage; 3] = [
    Damage {
        what: "another byte in a cell that is not in use",
        at: 54,
        value: 9,
    },
    Damage {
        what: "another byte in a slot beyond the count",
        at: READINGS_AT + 6,
        value: 9,
    },
    Damage {
        what: "no reading, which is consumed",
        at: state::COUNT_AT,
        value: 0,
    },
];

// A cell of this number, parent and height, if the work area has it.
fn bear(work: &mut Work, n: u16, parent: u16, height: u16) {
    if n < state::WORK_CELLS {
        cells::birth(
            work,
            n,
            Cell {
                parent: CellNo(parent),
                height,
                state: StateNo(STATES - 1),
                value: u32::from(n),
                start: 0,
                end: 1,
            },
        );
    }
}

// The number under n, in a stack of cells that begins at first.
fn under(first: u16, n: u16) -> u16 {
    if n > first { n - 1 } else { first }
}

// A stack of cells of its own, of height 65 at most: the lowest has the number first.
fn pile(work: &mut Work, first: u16, height: u16) {
    if first > state::WORK_CELLS {
        return;
    }
    for h in 0..height.min(MAX_HEIGHT + 1) {
        bear(work, first + h, under(first, first + h), h + 1);
    }
}

// The result i: its top, and a mark of its own.
fn list(work: &mut Work, i: u16, top: u16) {
    if i < MAX_READINGS {
        state::put_slot(
            work,
            RESULTS_AT,
            i,
            Slot {
                top: CellNo(top),
                mark: u32::from(i),
            },
        );
    }
}

// Commits results that pass the test of a list; false if they do not.
#[tactic(auto, using(crate::proofs::Tested::tested))]
fn commit_right(work: &mut Work, state: &mut State, count: u16, cells: u16) -> bool {
    if count > MAX_READINGS || cells > state::WORK_CELLS {
        return false;
    }
    let right = state::list_right(work, cells, STATES, RESULTS_AT, count);
    if right {
        commit::commit(work, state, RESULTS_AT, count, cells);
    }
    right
}

fn verdict(state: &State, states: u16) -> &'static str {
    if state::valid_state(state, states) {
        "valid"
    } else {
        "not valid"
    }
}

fn print_state(rt: &impl Print, state: &State) -> io::Result<()> {
    println!(rt;
        "readings {}, cells in use {}, {}",
        state::reading_count(state),
        state::cells_in_use(state),
        verdict(state, STATES)
    )
}

fn commit_and_print(
    rt: &impl Print,
    work: &mut Work,
    state: &mut State,
    count: u16,
    cells: u16,
) -> io::Result<()> {
    if commit_right(work, state, count, cells) {
        print_state(rt, state)
    } else {
        println!(rt; "refused")
    }
}

fn one_pile(rt: &impl Print, work: &mut Work, state: &mut State, height: u16) -> io::Result<()> {
    print!(rt; "one stack of height {height}: ")?;
    pile(work, 0, height);
    list(work, 0, under(0, height));
    commit_and_print(rt, work, state, 1, height)
}

// 16 stacks of height 64, each of its own cells.
fn piles_apart(work: &mut Work) {
    for i in 0..MAX_READINGS {
        pile(work, i * MAX_HEIGHT, MAX_HEIGHT);
        list(work, i, i * MAX_HEIGHT + 63);
    }
}

// 16 stacks of height 64 over 63 cells that they share.
fn piles_shared(work: &mut Work) {
    pile(work, 0, 63);
    for i in 0..MAX_READINGS {
        bear(work, 63 + i, 62, MAX_HEIGHT);
        list(work, i, 63 + i);
    }
}

fn many(rt: &impl Print, work: &mut Work, state: &mut State) -> io::Result<()> {
    piles_apart(work);
    print!(rt; "16 stacks of height 64 that share nothing: ")?;
    commit_and_print(rt, work, state, 16, 1024)?;
    print!(rt; "17 results: ")?;
    commit_and_print(rt, work, state, 17, 1024)?;
    piles_shared(work);
    print!(rt; "16 stacks of height 64 that share all but the top: ")?;
    commit_and_print(rt, work, state, 16, 79)
}

// The readings of a state become results again, over its own cells.
fn reload(work: &mut Work, state: &State) {
    if state::cells_in_use(state) > state::STATE_CELLS {
        return;
    }
    state::load(state, work);
    for i in 0..MAX_READINGS {
        let slot = state::get_slot(state, READINGS_AT, i);
        list(work, i, slot.top.0);
    }
}

fn print_tops(rt: &impl Print, state: &State) -> io::Result<()> {
    let first = state::get_slot(state, READINGS_AT, 0);
    let second = state::get_slot(state, READINGS_AT, 1);
    println!(rt;
        "their tops are the cells {} and {}",
        first.top.0, second.top.0
    )
}

fn twice(rt: &impl Print, work: &mut Work, state: &mut State) -> io::Result<()> {
    pile(work, 100, 5);
    list(work, 0, 104);
    list(work, 1, 104);
    print!(rt; "one stack of height 5, listed twice: ")?;
    commit_and_print(rt, work, state, 2, 105)?;
    print_tops(rt, state)?;
    reload(work, state);
    print!(rt; "loaded and committed again: ")?;
    commit_and_print(rt, work, state, 2, 5)?;
    print_tops(rt, state)
}

// The check of a state in which the number at a byte is another one; then that number is put back.
fn damaged(rt: &impl Print, state: &mut State, damage: Damage) -> io::Result<()> {
    let Damage { what, at, value } = damage;
    if at > state::USED_AT {
        return Ok(());
    }
    let old = numbers::get16(state, at);
    numbers::put16(state, at, value);
    let told = println!(rt; "{what}: {}", verdict(state, STATES));
    numbers::put16(state, at, old);
    told
}

fn rules(rt: &impl Print, state: &mut State) -> io::Result<()> {
    println!(rt; "a table of 8 states: {}", verdict(state, STATES - 1))?;
    for damage in BROKEN {
        damaged(rt, state, damage)?;
    }
    Ok(())
}

fn unread(rt: &impl Print, state: &mut State) -> io::Result<()> {
    for damage in UNREAD {
        damaged(rt, state, damage)?;
    }
    Ok(())
}

fn walk(rt: &impl Print, work: &mut Work, state: &mut State) -> io::Result<()> {
    state::start_state(state, StateNo(1));
    print!(rt; "start: ")?;
    print_state(rt, state)?;
    one_pile(rt, work, state, 64)?;
    one_pile(rt, work, state, 65)?;
    many(rt, work, state)?;
    twice(rt, work, state)?;
    one_pile(rt, work, state, 3)?;
    rules(rt, state)?;
    unread(rt, state)
}

// What cannot be written is passed over, and the exit status is 0.
fn main(rt: HostRuntime) {
    let out = GoingOn {
        rt: &rt,
        says: false,
    };
    let mut state = [0; state::STATE_LENGTH];
    let mut work = [0; state::WORK_LENGTH];
    let _ = walk(&out, &mut work, &mut state);
}
