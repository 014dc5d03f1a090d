// Lines that hold bytes of the input, which need not be text, and the end of what is said. They have no promise: what a write puts out stands in no contract below them, so only safe and ending is proved.
use std::io;

pub fn line(rt: &impl Print, words: &[u8]) -> io::Result<()> {
    rt.write_all(words)?;
    rt.write_all(b"\n")
}

// A line that is not what it should be.
pub fn not_right(rt: &impl Print, why: &str, given: &[u8]) -> io::Result<()> {
    rt.write_all(why.as_bytes())?;
    line(rt, given)
}

// A program stops where a write fails, and says so on standard error.
pub fn end(rt: &HostRuntime, said: io::Result<()>) {
    if let Err(error) = said {
        host::fail(rt, b"standard output", &error);
    }
}
