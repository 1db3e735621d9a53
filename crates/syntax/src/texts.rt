//! Runs of plain text.

ghost use Rattle.std.specs.Prelude.{◌≡◌, ◌+◌, ◌≤◌, drop};
ghost use Rattle.syntax.specs.Runs.{text_run};

use crate::bytes::is_text;
use crate::ends::{eight_at, stops_in};
use crate::marks::texts_in;

const HIGHEST: u64 = 0x8080_8080_8080_8080;

// Past plain text, eight bytes at a time, to the first byte that is none or too rare to be told so, or to where fewer are left.
fn words_end(s: &[u8], from: usize) -> usize
    ensures { (from ≤ result) × (result + text_run (drop result s.now) ≡ from + text_run (drop from s.now)) }
{
    if s.len() < 8 {
        return from;
    }
    let last = s.len() - 8;
    let mut i = from;
    // The index moves by the eight bytes that are read at once.
    while i <= last {
        let x = eight_at(s, i);
        let stops = stops_in(x) | (texts_in(x) ^ HIGHEST);
        if stops != 0 {
            return i + (u64::trailing_zeros(stops) / 8) as usize;
        }
        i += 8;
    }
    i
}

// Past at most eight bytes of plain text, one by one, so that rare bytes do not cost a test of eight each.
fn few_end(s: &[u8], from: usize) -> usize
    ensures { (from ≤ result) × (result + text_run (drop result s.now) ≡ from + text_run (drop from s.now)) }
{
    let mut i = from;
    // The index may begin past the input's end, where no slice does.
    while i < s.len() {
        if 8 <= i - from {
            return i;
        }
        if !is_text(s[i]) {
            return i;
        }
        i += 1;
    }
    i
}

/// The index of the first byte from `from` on that is no plain text, or the input's length.
pub(crate) fn text_end(s: &[u8], from: usize) -> usize
    ensures { result ≡ from + text_run (drop from s.now) }
{
    let mut i = from;
    // The index moves by what was read, not by one.
    while i < s.len() {
        let j = words_end(s, i);
        if s.len() <= j {
            return j;
        }
        if !is_text(s[j]) {
            return j;
        }
        i = few_end(s, j + 1);
    }
    i
}
