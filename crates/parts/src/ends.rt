//! Where a piece of a part ends. Runs of text with no mark and no release in them are passed eight bytes at a time.

ghost use Rattle.std.specs.Prelude.{◌≡◌, ◌≤◌, min, eqb, length};
ghost use Rattle.parts.specs.Cuts.{cut_end};
ghost use Rattle.parts.specs.Component.{component_end, near_release};
ghost use Rattle.parts.specs.Texts.{text_bits};
ghost use Rattle.parts.specs.Plain.{plain_bits};
ghost use Rattle.parts.specs.Walked.{WalkTold};

use raw_bytes::{differing, eight_at, wide_byte};
use std::ops::ControlFlow;

// The highest bit of each of eight bytes, all other bits, the lowest, and eight times `?`.
const HIGH: usize = 0x8080_8080_8080_8080;

const LOW: usize = 0x7f7f_7f7f_7f7f_7f7f;

const ONES: usize = 0x0101_0101_0101_0101;

const RELEASES: usize = 0x3f3f_3f3f_3f3f_3f3f;

// Eight times `*`, and the rooms by which a byte is told from another where they differ by two or more, and by six or more.
const STARS: usize = 0x2a2a_2a2a_2a2a_2a2a;

const BY_TWO: usize = 0x7e7e_7e7e_7e7e_7e7e;

const BY_SIX: usize = 0x7a7a_7a7a_7a7a_7a7a;

// Whether no byte of eight is that of eight marks, or a `?`.
fn are_plain(word: usize, marks: usize) -> bool
    ensures { result ≡ eqb (plain_bits word marks) 9259542123273814144 }
{
    differing(word, marks, LOW) & differing(word, RELEASES, LOW) == HIGH
}

// Past plain text, eight bytes by eight: a piece that starts at `from` ends where one does that starts here.
// The index moves by eight, as far as eight are left: one load and two tests for each.
fn pass_plain(s: &[u8], from: usize, to: usize, mark: u8) -> usize
    ensures { (from ≤ result) × (cut_end s.now result to mark ≡ cut_end s.now from to mark) }
{
    let marks = wide_byte(mark) * ONES;
    let mut i = from;
    while i < to {
        if to - i < 8 {
            return i;
        }
        let Some(word) = eight_at(s, i) else {
            return i;
        };
        if !are_plain(word, marks) {
            return i;
        }
        i += 8;
    }
    i
}

// Byte by byte to the end of the piece that starts at `from`: a break there; or past eight bytes and what a release at their end releases, from
// where the piece goes on and nothing is released.
fn walk(s: &[u8], from: usize, end: usize, mark: u8) -> ControlFlow<usize, usize>
    requires { end ≤ length s.now }
    ensures { WalkTold s.now from end mark result }
{
    if end <= from {
        return ControlFlow::Break(from);
    }
    let stop = from + (end - from).min(8);
    // The index moves by what was read, not by one.
    let mut i = from;
    while i < stop {
        let b = s[i];
        if b == mark {
            return ControlFlow::Break(i);
        }
        if b == b'?' {
            if end - i < 2 {
                return ControlFlow::Break(end);
            }
            i += 2;
            continue;
        }
        i += 1;
    }
    if end <= i {
        return ControlFlow::Break(i);
    }
    ControlFlow::Continue(i)
}

// Where the piece that starts at `from` ends: at the first byte that stands as the mark, or with the part. Most are short, so a walk
// comes first.
pub(crate) fn piece_end(s: &[u8], from: usize, to: usize, mark: u8) -> usize
    ensures { result ≡ cut_end s.now from to mark }
{
    let end = s.len().min(to);
    let mut i = from;
    loop {
        match walk(s, i, end, mark) {
            ControlFlow::Break(at) => return at,
            ControlFlow::Continue(next) => i = pass_plain(s, next, end, mark),
        }
    }
}

// The highest bit of each of eight bytes, set where the byte is neither `*` nor `+`, nor one from `:` to `?`.
fn text_bits(word: usize) -> usize
    ensures { result ≡ text_bits word }
{
    differing(word, STARS, BY_TWO) & differing(word, RELEASES, BY_SIX)
}

// Past text with no mark and no release in it, eight bytes by eight, to the first byte that may be one, or to where fewer are left.
// The index moves by eight: one load and two tests for each.
fn pass_text(s: &[u8], from: usize, to: usize) -> usize
    requires { to ≤ length s.now }
    ensures { component_end s.now result to ≡ component_end s.now from to }
{
    let mut i = from;
    while i < to {
        if to - i < 8 {
            return i;
        }
        let Some(word) = eight_at(s, i) else {
            return i;
        };
        let text = text_bits(word);
        if text != HIGH {
            return i + (usize::trailing_zeros(text ^ HIGH) / 8) as usize;
        }
        i += 8;
    }
    i
}

// Where the first component of the element that starts at `from` ends, by each mark in turn: for what may have a release in it.
fn end_by_each(s: &[u8], from: usize, to: usize) -> usize
    ensures { result ≡ component_end s.now from to }
{
    let element = piece_end(s, from, to, b'+');
    let occurrence = piece_end(s, from, element, b'*');
    piece_end(s, from, occurrence, b':')
}

// Whether a byte is one from `;` to `?`: where eight are looked at these are not told from a release.
fn near_release(b: u8) -> bool
    ensures { result ≡ near_release b }
{
    b':' < b && b <= b'?'
}

// Where that component ends, in one walk where there is no release: at the first byte that stands as a mark, or with the segment.
pub(crate) fn component_end(s: &[u8], from: usize, to: usize) -> usize
    ensures { result ≡ component_end s.now from to }
{
    let end = s.len().min(to);
    let start = pass_text(s, from, end);
    for i in start..end {
        let byte = s[i];
        if byte == b'+' || byte == b'*' || byte == b':' {
            return i;
        }
        if near_release(byte) {
            return end_by_each(s, i, end);
        }
    }
    start.max(end)
}
