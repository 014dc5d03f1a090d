// Plans stacks that stand at each limit, on both sides of it, from table files in data/, and says what each planning comes to; then asks questions of some.
// Room is 16 chains, as in a feed. A table file has the name of what it shows; in `mixed`, rule 0 leads on to a shift, rule 1 has no goto, and rule 2 leads nowhere.
#![tactic(auto)]

ghost use Rattle.std.specs.Prelude.{◌<◌, ◌≤◌, length};

use cells::Cell;
use chains::Planned;
use host::GoingOn;
use meaning::{CellNo, MAX_HEIGHT, QuestionAnswer, Refusal, StateNo};
use std::{fmt, io};
use table::Table;

const ROOM: usize = meaning::MAX_CHAINS;

// So many marks are shown.
const SHOWN: usize = 4;

// The cells of a line, 18 bytes each.
const LINE_LENGTH: usize = cells::CELL_SIZE * meaning::HEIGHTS;

// What is asked of a stack: a planning after so many chains, or the questions, does it take the class and does it recover, which know no limit of chains.
#[derive(Clone, Copy)]
enum Asked {
    Planning(usize),
    Questions,
}

// A case: what is said before the answer, its table file, and a stack of a line of cells at a class: the start entry with state 1, above it `second`, above that
// state 1 again.
#[derive(Clone, Copy)]
struct Case {
    title: &'static str,
    table: &'static str,
    class: u16,
    second: u16,
    height: u16,
    asked: Asked,
}

// What most cases have in common: a planning of [1,2] at class 4, with no chain before it.
const USUAL: Case = Case {
    title: "",
    table: "",
    class: 4,
    second: 2,
    height: 2,
    asked: Asked::Planning(0),
};

const CASES: [Case; 26] = [
    Case {
        title: "T1, [1,2] at class 4",
        table: "T1",
        ..USUAL
    },
    Case {
        title: "T1, [1,2] at class 3, which it does not take",
        table: "T1",
        class: 3,
        ..USUAL
    },
    Case {
        title: "a dead end beside a live chain",
        table: "mixed",
        class: 5,
        ..USUAL
    },
    Case {
        title: "a rule as long as the stack",
        table: "six",
        class: 3,
        second: 1,
        height: 1,
        ..USUAL
    },
    Case {
        title: "a missing goto",
        table: "seven",
        class: 3,
        second: 1,
        height: 1,
        ..USUAL
    },
    Case {
        title: "a shift from height 63 to 64",
        table: "height",
        class: 3,
        second: 1,
        height: 63,
        ..USUAL
    },
    Case {
        title: "a shift from height 64 to 65",
        table: "height",
        class: 3,
        second: 1,
        height: 64,
        ..USUAL
    },
    Case {
        title: "an empty rule from 62, then a shift from 63",
        table: "empty",
        second: 1,
        height: 62,
        ..USUAL
    },
    Case {
        title: "an empty rule from 63, then a shift from 64",
        table: "empty",
        second: 1,
        height: 63,
        ..USUAL
    },
    Case {
        title: "an empty rule from 64 to 65",
        table: "empty",
        second: 1,
        height: 64,
        ..USUAL
    },
    Case {
        title: "a chain of 32 reductions",
        table: "chain-32",
        ..USUAL
    },
    Case {
        title: "a chain of 33 reductions",
        table: "chain-33",
        ..USUAL
    },
    Case {
        title: "an empty rule that leads to itself, from height 1",
        table: "empty-loop",
        class: 3,
        second: 1,
        height: 1,
        ..USUAL
    },
    Case {
        title: "a walk of 1,024 reductions",
        table: "walk-1024",
        ..USUAL
    },
    Case {
        title: "a walk of 1,025 reductions",
        table: "walk-1025",
        ..USUAL
    },
    Case {
        title: "16 chains",
        table: "chains-16",
        ..USUAL
    },
    Case {
        title: "17 chains",
        table: "chains-17",
        ..USUAL
    },
    Case {
        title: "16 chains after one chain",
        table: "chains-16",
        asked: Asked::Planning(1),
        ..USUAL
    },
    Case {
        title: "a live chain, then a missing goto, after 15 chains",
        table: "mixed",
        class: 3,
        asked: Asked::Planning(15),
        ..USUAL
    },
    Case {
        title: "a live chain, then a missing goto, after 16 chains",
        table: "mixed",
        class: 3,
        asked: Asked::Planning(16),
        ..USUAL
    },
    Case {
        title: "a missing goto, then a live chain, after 16 chains",
        table: "mixed",
        asked: Asked::Planning(16),
        ..USUAL
    },
    Case {
        title: "T1, [1,2] asked for class 4",
        table: "T1",
        asked: Asked::Questions,
        ..USUAL
    },
    Case {
        title: "T1, [1,2] asked for class 3",
        table: "T1",
        class: 3,
        asked: Asked::Questions,
        ..USUAL
    },
    Case {
        title: "T2, [1,2] asked for class 3",
        table: "T2",
        class: 3,
        asked: Asked::Questions,
        ..USUAL
    },
    Case {
        title: "17 chains, asked",
        table: "chains-17",
        asked: Asked::Questions,
        ..USUAL
    },
    Case {
        title: "a live chain, then a missing goto, asked",
        table: "mixed",
        class: 3,
        asked: Asked::Questions,
        ..USUAL
    },
];

// An answer in words.
#[derive(Clone, Copy)]
struct Said(QuestionAnswer);

impl fmt::Display for Said {
    fn fmt<W: fmt::Write>(&self, f: &mut fmt::Formatter<W>) -> fmt::Result {
        match self.0 {
            Ok(true) => f.write_str("yes"),
            Ok(false) => f.write_str("no"),
            Err(refusal) => write!(f, "refused, {}", refusal.number()),
        }
    }
}

// The first marks of a walk: the chains below each reduction, and its size.
fn say_marks(rt: &impl Print, marks: &[u8; 4096], walked: usize) -> io::Result<()> {
    for k in 0..walked {
        if SHOWN <= k {
            return print!(rt; " and so on");
        }
        print!(rt;
            " {}/{}",
            chains::chains_mark(marks, k),
            chains::size_mark(marks, k)
        )?;
    }
    Ok(())
}

fn say_planned(
    rt: &impl Print,
    planned: Result<Planned, Refusal>,
    marks: &[u8; 4096],
) -> io::Result<()> {
    match planned {
        Err(refusal) => println!(rt; ": refused, {}", refusal.number()),
        Ok(planned) => {
            print!(rt;
                ": reductions {}, chains {}",
                planned.walked, planned.chains
            )?;
            if planned.walked > 0 {
                print!(rt; ", marks")?;
                say_marks(rt, marks, planned.walked)?;
            }
            println!(rt)
        }
    }
}

// The cell i of a line.
fn cell(i: u16, second: u16) -> Cell
    requires { i < 64 }
{
    Cell {
        parent: CellNo(i.saturating_sub(1)),
        height: i + 1,
        state: StateNo(if i == 1 { second } else { 1 }),
        value: 0,
        start: 0,
        end: 0,
    }
}

// A pool with a line of 64 cells, each on the one before it.
fn line(second: u16) -> [u8; LINE_LENGTH] {
    let mut pool = [0; LINE_LENGTH];
    for i in 0..MAX_HEIGHT {
        cells::put_cell(&mut pool, CellNo(i), cell(i, second));
    }
    pool
}

// What is asked of a case's stack by a checked table; nothing if the stack is not the line's, or its planning has more chains before it than there is room for.
#[tactic(auto, using(crate::proofs::Lines::line_stack))]
fn answer(rt: &impl Print, table: &Table, case: Case) -> io::Result<()> {
    let Case { class, height, .. } = case;
    if height == 0 || height > MAX_HEIGHT {
        return Ok(());
    }
    let pool = line(case.second);
    let top = CellNo(height - 1);
    let mut marks = [0; 4096];
    if !cells::linked_from(&pool, MAX_HEIGHT, meaning::MAX_STATES, height, top) {
        return Ok(());
    }
    match case.asked {
        Asked::Planning(chains) => {
            if chains > ROOM {
                return Ok(());
            }
            let planned = chains::plan_stack(
                table, &pool, height, top, class, ROOM, chains, &mut marks,
            );
            say_planned(rt, planned, &marks)
        }
        Asked::Questions => {
            let takes = chains::can_plan_stack(table, &pool, height, top, class, &mut marks);
            let recovers = chains::recovers_stack(table, &pool, height, top, &mut marks);
            println!(rt; ": takes it: {}; recovers: {}", Said(takes), Said(recovers))
        }
    }
}

// A table file's bytes, and how many there are; none if it cannot be read.
fn read(rt: &HostRuntime, path: &str, bytes: &mut [u8]) -> usize
    ensures { result ≤ length bytes.new }
{
    match host::open(rt, path.as_bytes()) {
        Some(mut file) => host::read_full(&mut file, bytes),
        None => 0,
    }
}

fn run(rt: &HostRuntime, out: &impl Print, case: Case) -> io::Result<()> {
    let mut bytes = [0; 4096];
    let n = read(rt, case.table, &mut bytes);
    print!(out; "{}", case.title)?;
    match Table::check(&bytes[..n]) {
        Some(table) => answer(out, &table, case),
        None => println!(out; ": wrong table"),
    }
}

fn run_all(rt: &HostRuntime, out: &impl Print) -> io::Result<()> {
    for case in CASES {
        run(rt, out, case)?;
    }
    Ok(())
}

// What cannot be written is passed over, and the exit status is 0.
fn main(rt: HostRuntime) {
    let out = GoingOn {
        rt: &rt,
        says: false,
    };
    let _ = run_all(&rt, &out);
}
