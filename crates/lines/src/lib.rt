//! What the programs share: a text cut into lines, fields and words, the numbers and bytes that are written there, and what is said
//! on standard output.

#![tactic(auto)]

mod coded;
mod standard;

ghost use Rattle.std.specs.Prelude.{◌≡◌};
ghost use Rattle.lines.specs.Lines.{end_at, past_at, piece_text, field_at};
ghost use Rattle.lines.specs.Numbers.{number_said};

pub use coded::{Sign, decode, sign_at};
pub use standard::{four_digits, letters, read_input, say, say_line, say_number, say_refusal};

// Where the piece that starts at an index ends: at the next mark, or at the end.
fn end_at(s: &[u8], from: usize, mark: u8) -> usize
    ensures { result ≡ end_at s.now from mark }
{
    for i in from..s.len() {
        if s[i] == mark {
            return i;
        }
    }
    from.max(s.len())
}

/// The bytes from an index up to the next mark, or to the end: a line, a field, a word.
pub fn piece_at(s: &[u8], from: usize, mark: u8) -> &[u8]
    ensures { result.now ≡ piece_text s.now from mark }
{
    if s.len() <= from {
        return &s[0..0];
    }
    let end = end_at(s, from, mark);
    &s[from..end]
}

/// The index past the next mark, or the end.
pub fn past(s: &[u8], from: usize, mark: u8) -> usize
    ensures { result ≡ past_at s.now from mark }
{
    let end = end_at(s, from, mark);
    if end < s.len() { end + 1 } else { end }
}

/// Where the field k of a line begins, counted from 0, or the end: fields are parted by tabs.
pub fn field(line: &[u8], k: usize) -> usize
    ensures { result ≡ field_at line.now k }
{
    let mut at = 0;
    for _ in 0..k {
        at = past(line, at, b'\t');
    }
    at
}

/// The number that the digits from an index on say; of more than nineteen digits the last nineteen.
pub fn number(s: &[u8], from: usize) -> usize
    ensures { result ≡ number_said s.now from }
{
    let mut value = 0;
    for i in from..s.len() {
        let b = s[i];
        if b < b'0' || b'9' < b {
            return value;
        }
        value = value % 1000000000000000000 * 10 + (b - b'0') as usize;
    }
    value
}
