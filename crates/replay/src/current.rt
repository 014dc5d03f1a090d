// What a script has made so far, and what its lines do to it.
use super::commands::{Command, Source};
use super::tables::{ROOM, Room};
use super::{answers, commands, tables};
use console::{State, Work, blanks, files, lines, saying};
use machine::Machine;
use meaning::StartNumbers;
use std::io;

// A table of so many bytes, none if there is no table; and whether there is a state.
#[derive(Drop)]
pub struct Current {
    room: Room,
    table: usize,
    state: State,
    work: Work,
    started: bool,
}

impl Current {
    // Neither a table nor a state.
    pub fn new() -> Current {
        Current {
            room: [0; ROOM],
            table: 0,
            state: [0; Machine::STATE_LENGTH],
            work: [0; Machine::WORK_LENGTH],
            started: false,
        }
    }

    fn forget(&mut self) {
        self.table = 0;
        self.started = false;
    }

    // A start on a new table is its check, and leaves no state that a command sees.
    fn check(&mut self, rt: &impl Print, length: usize) -> io::Result<()> {
        self.table = length;
        let table = lines::first(&self.room, length);
        let checked = Machine::start(table, &mut self.state, &mut self.work);
        println!(rt; "table {}", StartNumbers::from(checked).answer)
    }

    // A line that gives a table forgets the old one and its state.
    fn load(&mut self, rt: &HostRuntime, line: &[u8], source: Source) -> io::Result<()> {
        self.forget();
        match source {
            Source::Bytes(at) => match tables::load(blanks::from(line, at), &mut self.room) {
                Some(length) => self.check(rt, length),
                None => saying::not_right(rt, "not a command: ", line),
            },
            Source::File(at) => {
                let name = blanks::from(line, at);
                match files::read(rt, name, &mut self.room) {
                    Some(length) => self.check(rt, length),
                    None => saying::not_right(rt, "cannot be read: ", name),
                }
            }
        }
    }

    fn start(&mut self, rt: &impl Print) -> io::Result<()> {
        let table = lines::first(&self.room, self.table);
        let answer = Machine::start(table, &mut self.state, &mut self.work);
        println!(rt; "start {}", StartNumbers::from(answer).answer)?;
        self.started = answer.is_ok();
        if !self.started {
            return Ok(());
        }
        answers::say_state(rt, table, &self.state)
    }

    // A command on the table that there is.
    fn command(&mut self, rt: &impl Print, line: &[u8]) -> io::Result<()> {
        match commands::command_of(line) {
            None => saying::not_right(rt, "not a command: ", line),
            Some(Command::Start) => self.start(rt),
            Some(Command::Call(call)) => {
                if !self.started {
                    return println!(rt; "{} none", call.name());
                }
                let table = lines::first(&self.room, self.table);
                answers::answer(rt, call, table, &mut self.state, &mut self.work)
            }
        }
    }

    pub fn answer(&mut self, rt: &HostRuntime, line: &[u8]) -> io::Result<()> {
        if commands::is_case(line) {
            self.forget();
            return saying::line(rt, line);
        }
        match commands::source_of(line) {
            Some(source) => self.load(rt, line, source),
            None => self.command(rt, line),
        }
    }

    // A line that is too long is no command; one that was to give a table leaves none.
    pub fn too_long(&mut self, rt: &impl Print, line: &[u8]) -> io::Result<()> {
        if commands::source_of(line).is_some() {
            self.forget();
        }
        println!(rt; "a line is too long")
    }
}
