// The commands of a script.
use console::words;
use meaning::Term;

// A call on a state.
#[derive(Clone, Copy)]
pub enum Call {
    Term(Term),
    Takes(u32),
    CanEnd,
    CanRecover,
    Stack(u32),
}

impl Call {
    pub fn name(self) -> &'static str {
        match self {
            Call::Term(_) => "term",
            Call::Takes(_) => "takes",
            Call::CanEnd => "canend",
            Call::CanRecover => "canrecover",
            Call::Stack(_) => "stack",
        }
    }
}

#[derive(Clone, Copy)]
pub enum Command {
    Start,
    Call(Call),
}

// A line that gives a table: its bytes, or a file's name, from a place on.
#[derive(Clone, Copy)]
pub enum Source {
    Bytes(usize),
    File(usize),
}

// Empty lines and comments.
pub fn skipped(line: &[u8]) -> bool {
    line.is_empty() || line.starts_with(b"#")
}

// A case has a name.
pub fn is_case(line: &[u8]) -> bool {
    words::behind_word(line, b"case").is_some_and(|at| at < line.len())
}

// The bytes of a table may be missing.
pub fn source_of(line: &[u8]) -> Option<Source> {
    if let Some(at) = words::behind_word(line, b"table") {
        return Some(Source::Bytes(at));
    }
    words::behind_word(line, b"file").map(Source::File)
}

// The commands without numbers.
fn word_of(line: &[u8]) -> Option<Command> {
    match line {
        b"start" => Some(Command::Start),
        b"canend" => Some(Command::Call(Call::CanEnd)),
        b"canrecover" => Some(Command::Call(Call::CanRecover)),
        _ => None,
    }
}

pub fn command_of(line: &[u8]) -> Option<Command> {
    if let Some(at) = words::behind_word(line, b"term") {
        let term = words::term_at(line, at)?;
        return Some(Command::Call(Call::Term(term)));
    }
    if let Some(at) = words::behind_word(line, b"takes") {
        let class = words::last_number(line, at)?;
        return Some(Command::Call(Call::Takes(class)));
    }
    if let Some(at) = words::behind_word(line, b"stack") {
        let number = words::last_number(line, at)?;
        return Some(Command::Call(Call::Stack(number)));
    }
    word_of(line)
}
