// Blanks and tabs in a line: they stand between words and numbers, at its front and at its end, and as many as one likes.
ghost use Rattle.std.specs.Prelude.{◌≡◌, length, drop, take_while, reverse};
ghost use Rattle.console.specs.Text.{is_blank, past_blanks, text_end, trimmed_of};

use super::lines::first;

fn is_blank(byte: u8) -> bool
    ensures { result ≡ is_blank byte }
{
    matches!(byte, b' ' | b'\t')
}

// How many blanks a text begins with, and with how many it ends.
fn blanks(text: &[u8]) -> usize
    ensures { result ≡ length (take_while is_blank text.now) }
{
    text.iter().take_while(|byte| is_blank(**byte)).count()
}

fn end_blanks(text: &[u8]) -> usize
    ensures { result ≡ length (take_while is_blank (reverse text.now)) }
{
    text.iter()
        .rev()
        .take_while(|byte| is_blank(**byte))
        .count()
}

// Past the blanks that stand from a place on.
pub fn past_blanks(line: &[u8], at: usize) -> usize
    ensures { result ≡ past_blanks line.now at }
{
    at + blanks(from(line, at))
}

// Where the blanks at the line's end begin.
fn text_end(line: &[u8]) -> usize
    ensures { result ≡ text_end line.now }
{
    line.len() - end_blanks(line)
}

// The bytes from a place on; none past their end.
pub fn from(bytes: &[u8], at: usize) -> &[u8]
    ensures { result.now ≡ drop at bytes.now }
{
    bytes.get(at..).unwrap_or(&[])
}

// The line without the blanks at its front and at its end.
pub fn trimmed(line: &[u8]) -> &[u8]
    ensures { result.now ≡ trimmed_of line.now }
{
    let text = first(line, text_end(line));
    from(text, past_blanks(text, 0))
}
