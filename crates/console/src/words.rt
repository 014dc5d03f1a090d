// What stands in a line: words, numbers with blanks between two, terms.
ghost use Rattle.std.specs.Prelude.{◌≡◌};
ghost use Rattle.console.specs.Text.{digit_of, decimal_of, fitting, grown_by, ScanIs, number_at, last_at, last_number, short_of, term_at, behind_word};

use super::blanks::{from, past_blanks};
use meaning::Term;

// The greatest number of 32 bits.
const GREATEST: u64 = 4294967295;

// A number of 32 bits that was read, and where the line goes on.
#[derive(Clone, Copy)]
struct Number {
    value: u32,
    next: usize,
}

// How many digits were read, and their number; none if it is too great.
#[derive(Clone, Copy)]
struct Scan {
    value: Option<u32>,
    count: usize,
}

// A digit's value, up to 15.
pub fn digit(byte: u8) -> Option<u8>
    ensures { result ≡ digit_of byte }
{
    match byte {
        b'0'..=b'9' => Some(byte - 48),
        b'a'..=b'f' => Some(byte - 87),
        b'A'..=b'F' => Some(byte - 55),
        _ => None,
    }
}

// A decimal digit's value.
fn decimal(byte: u8) -> Option<u8>
    ensures { result ≡ decimal_of byte }
{
    match byte {
        b'0'..=b'9' => Some(byte - 48),
        _ => None,
    }
}

// The number with one decimal digit more; one that is too great only stays so.
fn grown(value: u64, digit: u8) -> u64
    ensures { result ≡ grown_by value digit }
{
    if value > GREATEST {
        return value;
    }
    value * 10 + u64::from(digit)
}

// So many digits of this number.
fn scan_of(value: u64, count: usize) -> Scan
    ensures { result ≡ record { value = fitting value; count = count } }
{
    Scan {
        value: u32::try_from(value).ok(),
        count,
    }
}

// The decimal digits at a text's front.
#[tactic(auto, using(crate::proofs::Text::scan_begins, crate::proofs::Text::scan_on))]
fn scanned(text: &[u8]) -> Scan
    ensures { ScanIs text.now result }
{
    let mut value = 0;
    for (count, byte) in text.iter().enumerate() {
        let Some(d) = decimal(*byte) else {
            return scan_of(value, count);
        };
        value = grown(value, d);
    }
    scan_of(value, text.len())
}

// The number from a place on, of at least one digit, and past the blanks after it.
#[tactic(auto, using(crate::proofs::Text::digits_there))]
fn number_at(line: &[u8], at: usize) -> Option<Number>
    ensures { result ≡ number_at line.now at }
{
    let scan = scanned(from(line, at));
    let count = scan.count;
    if count == 0 {
        return None;
    }
    let value = scan.value?;
    Some(Number {
        value,
        next: past_blanks(line, at + count),
    })
}

// The number from a place on, as the line's last.
fn last_at(line: &[u8], at: usize) -> Option<u32>
    ensures { result ≡ last_at line.now at }
{
    let number = number_at(line, at)?;
    (number.next == line.len()).then_some(number.value)
}

// The number past the blanks from a place on, as the line's last.
pub fn last_number(line: &[u8], at: usize) -> Option<u32>
    ensures { result ≡ last_number line.now at }
{
    last_at(line, past_blanks(line, at))
}

// A class or a reading's number; where it is too great for 16 bits, one that is too great for every table and state.
pub fn short(value: u32) -> u16
    ensures { result ≡ short_of value }
{
    u16::try_from(value).unwrap_or(u16::MAX)
}

// The four numbers of a term, past the blanks from a place on, to the line's end.
pub fn term_at(line: &[u8], at: usize) -> Option<Term>
    ensures { result ≡ term_at line.now at }
{
    let class = number_at(line, past_blanks(line, at))?;
    let value = number_at(line, class.next)?;
    let start = number_at(line, value.next)?;
    let end = last_at(line, start.next)?;
    Some(Term {
        class: short(class.value),
        value: value.value,
        start: start.value,
        end,
    })
}

// Where a line goes on past its first word, if it is this one, and the blanks behind it; a longer word is another.
pub fn behind_word(line: &[u8], word: &[u8]) -> Option<usize>
    ensures { result ≡ behind_word line.now word.now }
{
    if !line.starts_with(word) {
        return None;
    }
    let end = word.len();
    let next = past_blanks(line, end);
    let ends = end < next || line.len() <= end;
    ends.then_some(next)
}
