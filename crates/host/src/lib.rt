// Files by name, standard error, standard output for programs that go on where a write fails, and the count of the arguments. What a file holds and what a write puts out stand in no contract below them, so only the count of bytes read is promised, and that such a program goes on.
#![tactic(auto)]

ghost use Rattle.std.specs.Prelude.{◌≤◌, length, IsOk};

use std::env::{Env, FillError};
use std::fmt::Display;
use std::fs::File;
use std::io;
use std::io::{ErrorKind, Read};

// A line on standard error: what failed, as the caller names it, and why.
pub fn fail(rt: &HostRuntime, what: &[u8], error: &io::Error) {
    let out = rt.stderr();
    let _ = out.write_all(what);
    let _ = out.println(format_args!(": {error}"));
}

// Standard output, where a write that fails counts as written, so that all that comes after it is tried too: it is passed over, or said on standard error.
#[derive(Clone, Copy)]
pub struct GoingOn<'a> {
    pub rt: &'a HostRuntime,
    pub says: bool,
}

impl<'a> GoingOn<'a> {
    fn past(&self, written: io::Result<()>) -> io::Result<()>
        ensures { IsOk result }
    {
        if let Err(error) = &written
            && self.says
        {
            fail(self.rt, b"standard output", error);
        }
        Ok(())
    }
}

impl<'a> Print for GoingOn<'a> {
    fn print<D: Display + Drop>(&self, value: D) -> io::Result<()>
        ensures { IsOk result }
    {
        self.past(self.rt.print(value))
    }

    fn println<D: Display + Drop>(&self, value: D) -> io::Result<()>
        ensures { IsOk result }
    {
        self.past(self.rt.println(value))
    }

    fn write_all(&self, bytes: &[u8]) -> io::Result<()>
        ensures { IsOk result }
    {
        self.past(self.rt.write_all(bytes))
    }
}

// A file's name is text here: another one names no file.
fn file_of(rt: &HostRuntime, path: &[u8]) -> io::Result<File> {
    let Ok(name) = std::str::from_utf8(path) else {
        return Err(io::Error::from(ErrorKind::InvalidFilename));
    };
    File::open(rt, name)
}

// The file, open for reading; or why it cannot be opened is said on standard error.
pub fn open(rt: &HostRuntime, path: &[u8]) -> Option<File> {
    file_of(rt, path)
        .inspect_err(|error| fail(rt, path, error))
        .ok()
}

// Reads until there is no room left, the file ends or a read fails, and returns how many bytes it put at the start of the room.
pub fn read_full(file: &mut File, bytes: &mut [u8]) -> usize
    ensures { result ≤ length bytes.new }
{
    let mut done = 0;
    while done < bytes.len() {
        let n = file.read(&mut bytes[done..]).unwrap_or(0);
        if n == 0 {
            break;
        }
        done += n;
    }
    done
}

fn has_argument(rt: &impl Env, i: usize) -> bool {
    !matches!(rt.arg(i, &mut [0u8; 1]), Err(FillError::NotPresent))
}

// How many arguments there are, the program's name among them.
pub fn arg_count(rt: &impl Env) -> usize {
    (0..usize::MAX)
        .position(|i| !has_argument(rt, i))
        .unwrap_or(usize::MAX)
}
