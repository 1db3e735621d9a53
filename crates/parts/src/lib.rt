//! The parts of a segment, as places in the lent slice.

#![tactic(auto)]

mod ends;
mod segments;

ghost use Rattle.std.specs.Prelude.{◌≡◌, false, eqb, leb};
ghost use Rattle.parts.specs.Component.{component_from};
ghost use Rattle.parts.specs.Cuts.{first_of};
ghost use Rattle.parts.specs.Places.{absent, bytes_of, piece_at, counted_at, element_at, occurrence_at, component_at, part_at, repeats};

use crate::ends::{component_end, piece_end};
pub use segments::segment_at;

/// The bytes from one index up to and without another. Absent where there are none.
#[derive(Clone, Copy)]
pub struct Part {
    pub from: usize,
    pub to: usize,
}

impl Part {
    /// No part.
    pub fn none() -> Self
        ensures { result ≡ absent }
    {
        Part { from: 0, to: 0 }
    }

    /// Whether the part has no byte, wherever it stands: it ends no later than it begins.
    pub fn is_absent(self) -> bool
        ensures { result ≡ leb self.to self.from }
    {
        self.to <= self.from
    }
}

// A part from its n-th piece on, where it is cut at a mark, counted from 0: that piece is its first. No part where there is none.
fn rest_from(s: &[u8], part: Part, mark: u8, n: usize) -> Part
    requires { eqb mark 63 ≡ false }
    ensures { first_of s.now result mark ≡ piece_at s.now part mark n }
{
    let to = part.to;
    let mut from = part.from;
    for _ in 0..n {
        let end = piece_end(s, from, to, mark);
        if to <= end || s.len() <= end {
            return Part::none();
        }
        from = end + 1;
    }
    Part { from, to }
}

// The n-th piece of a part cut at a mark, counted from 0.
fn piece(s: &[u8], part: Part, mark: u8, n: usize) -> Part
    requires { eqb mark 63 ≡ false }
    ensures { result ≡ piece_at s.now part mark n }
{
    let rest = rest_from(s, part, mark, n);
    let end = piece_end(s, rest.from, rest.to, mark);
    Part {
        from: rest.from,
        to: end,
    }
}

/// Element e of a segment, counted from 1.
pub fn element(s: &[u8], segment: Part, e: usize) -> Part
    ensures { result ≡ element_at s.now segment e }
{
    if e == 0 {
        return Part::none();
    }
    piece(s, segment, b'+', e)
}

// The n-th piece of a part cut at a mark, counted from 1.
fn counted(s: &[u8], part: Part, mark: u8, n: usize) -> Part
    requires { eqb mark 63 ≡ false }
    ensures { result ≡ counted_at s.now part mark n }
{
    if n == 0 {
        return Part::none();
    }
    piece(s, part, mark, n - 1)
}

/// Occurrence o of an element, counted from 1.
pub fn occurrence(s: &[u8], element: Part, o: usize) -> Part
    ensures { result ≡ occurrence_at s.now element o }
{
    counted(s, element, b'*', o)
}

/// Component c of an occurrence, counted from 1.
pub fn component(s: &[u8], occurrence: Part, c: usize) -> Part
    ensures { result ≡ component_at s.now occurrence c }
{
    counted(s, occurrence, b':', c)
}

/// The first component of the first occurrence of an element that starts at one index, in a segment that ends at another.
pub fn component_from(s: &[u8], from: usize, to: usize) -> Part
    ensures { result ≡ component_from s.now from to }
{
    let end = component_end(s, from, to);
    Part { from, to: end }
}

// The first component of the first occurrence of element e, found in one walk: most parts are asked for so.
fn first_component(s: &[u8], segment: Part, e: usize) -> Part
    ensures { result ≡ part_at s.now segment e 1 1 }
{
    if e == 0 {
        return Part::none();
    }
    let rest = rest_from(s, segment, b'+', e);
    component_from(s, rest.from, rest.to)
}

/// Element e, occurrence o, component c of a segment without its terminator.
pub fn part_at(s: &[u8], segment: Part, e: usize, o: usize, c: usize) -> Part
    ensures { result ≡ part_at s.now segment e o c }
{
    if o == 1 && c == 1 {
        return first_component(s, segment, e);
    }
    component(s, occurrence(s, element(s, segment, e), o), c)
}

/// Whether element e of a segment has more than one occurrence.
pub fn is_repeated(s: &[u8], segment: Part, e: usize) -> bool
    ensures { result ≡ repeats (bytes_of s.now segment) e }
{
    let part = element(s, segment, e);
    let to = part.to;
    let end = piece_end(s, part.from, to, b'*');
    if to <= end {
        return false;
    }
    end < s.len()
}

/// The bytes of a part, none where it is not in the slice.
pub fn bytes_of(s: &[u8], part: Part) -> &[u8]
    ensures { result.now ≡ bytes_of s.now part }
{
    let from = part.from;
    let to = part.to;
    if to <= from {
        return &s[0..0];
    }
    if s.len() <= from {
        return &s[0..0];
    }
    if s.len() < to {
        return &s[from..];
    }
    &s[from..to]
}
