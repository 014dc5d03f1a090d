// Lines of standard input, one after the other.
ghost use Rattle.std.specs.Prelude.{◌≡◌};
ghost use Rattle.console.specs.Input.{begun_by, Refilled, Fetched, PutIs, without_return, ended_line, ended_input, LineIs};
ghost use Rattle.console.specs.Text.{first_of};

use std::io::Read;

// A piece of the input, and a line of it: at most a table file of 65,536 bytes in hexadecimal, and a word.
pub type Piece = [u8; PIECE];

pub type Line = [u8; LINE];

pub const PIECE: usize = 65536;

pub const LINE: usize = 131100;

// What ends a line.
const FEED: u8 = b'\n';

// What of the piece is still to be read.
#[derive(Clone, Copy)]
pub struct Rest {
    at: usize,
    end: usize,
}

// A byte of the input, and what is left behind it.
#[derive(Clone, Copy)]
struct Byte {
    byte: u8,
    rest: Rest,
}

// A line of so many bytes, or one that is too long for its place, and what is left behind it.
#[derive(Clone, Copy)]
pub struct Next {
    pub length: Option<usize>,
    pub rest: Rest,
}

// The first n bytes; none where there are fewer.
pub fn first(bytes: &[u8], n: usize) -> &[u8]
    ensures { result.now ≡ first_of bytes.now n }
{
    bytes.get(..n).unwrap_or(&[])
}

// Before the first piece is read.
pub fn nothing() -> Rest
    ensures { result ≡ record { at = 0; end = 0 } }
{
    Rest { at: 0, end: 0 }
}

// The first byte of a piece of which so many bytes were read.
fn begun(piece: &Piece, end: usize) -> Option<Byte>
    ensures { result ≡ begun_by piece.now end }
{
    if end == 0 {
        return None;
    }
    Some(Byte {
        byte: piece[0],
        rest: Rest { at: 1, end },
    })
}

// The next piece's first byte. What cannot be read counts as the end of the input.
fn refill(rt: &HostRuntime, piece: &mut Piece) -> Option<Byte>
    ensures { Refilled piece.new result }
{
    let end = rt.stdin().read(piece).unwrap_or(0);
    begun(piece, end)
}

fn next_byte(rt: &HostRuntime, piece: &mut Piece, rest: Rest) -> Option<Byte>
    ensures { Fetched piece.old rest result piece.new }
{
    let at = rest.at;
    // Two tests, of which only the first is left in the machine code: a piece ends by its place's end.
    if rest.end <= at {
        return refill(rt, piece);
    }
    if PIECE <= at {
        return refill(rt, piece);
    }
    Some(Byte {
        byte: piece[at],
        rest: Rest { at: at + 1, ..rest },
    })
}

// A line too long for its place is cut, and counts one byte more than the place has.
fn put(line: &mut Line, length: usize, byte: u8) -> usize
    ensures { PutIs line.old length byte result line.new }
{
    if length < LINE {
        line[length] = byte;
        return length + 1;
    }
    LINE + 1
}

// How long a line is without a carriage return at its end, which some systems put before the line feed.
fn without_return(line: &[u8], length: usize) -> usize
    ensures { result ≡ without_return line.now length }
{
    match first(line, length) {
        [.., b'\r'] => length - 1,
        _ => length,
    }
}

fn ended_line(line: &[u8], length: usize, rest: Rest) -> Next
    ensures { result ≡ ended_line line.now length rest }
{
    let length = (length <= LINE).then(|| without_return(line, length));
    Next { length, rest }
}

// The last line may lack its end.
fn ended_input(line: &[u8], length: usize, rest: Rest) -> Option<Next>
    ensures { result ≡ ended_input line.now length rest }
{
    (length != 0).then(|| ended_line(line, length, rest))
}

// The next line, without its end; none at the end of the input. A proved loop has to end, and nothing says that the input does: the loop has more turns than any run uses up.
pub fn next_line(rt: &HostRuntime, piece: &mut Piece, rest: Rest, line: &mut Line) -> Option<Next>
    ensures { LineIs piece.old rest line.old result piece.new line.new }
{
    let mut rest = rest;
    let mut length = 0;
    let mut turns = u64::MAX;
    while turns > 0 {
        let Some(next) = next_byte(rt, piece, rest) else {
            return ended_input(line, length, rest);
        };
        rest = next.rest;
        if next.byte == FEED {
            return Some(ended_line(line, length, rest));
        }
        length = put(line, length, next.byte);
        turns -= 1;
    }
    None
}
