//! Where the parts of a POP stand.

ghost use Rattle.std.specs.Prelude.{◌≡◌};
ghost use Rattle.syntax.specs.Pieces.{part_of};
ghost use Rattle.parts.specs.Places.{bytes_of};
ghost use Rattle.period.specs.Elements.{element_found, text_in, again_in};

use parts::{Part, bytes_of, part_at};

// Where an element of a POP stands, and its first occurrence.
#[derive(Clone, Copy)]
pub(crate) struct Element {
    whole: Part,
    once: Part,
}

/// Component c of element e as written, in its first occurrence.
pub fn part_of(s: &[u8], segment: Part, e: usize, c: usize) -> &[u8]
    ensures { result.now ≡ part_of (bytes_of s.now segment) e 1 c }
{
    bytes_of(s, part_at(s, segment, e, 1, c))
}

// An element of the segment and its first occurrence, found once: an element may be long, and most of it not read.
pub(crate) fn find_element(s: &[u8], segment: Part, e: usize) -> Element
    ensures { result ≡ element_found s.now segment e }
{
    let whole = parts::element(s, segment, e);
    let once = parts::occurrence(s, whole, 1);
    Element { whole, once }
}

// The second element, found from the end of the first, which need not be passed again.
pub(crate) fn find_second(s: &[u8], segment: Part, first: Element) -> Element
    requires { first ≡ element_found s.now segment 1 }
    ensures { result ≡ element_found s.now segment 2 }
{
    let whole = first.whole;
    if whole.from == 0 {
        return find_element(s, segment, 2);
    }
    find_element(
        s,
        Part {
            from: whole.to,
            to: segment.to,
        },
        1,
    )
}

// Component c of the first occurrence as written.
pub(crate) fn text_in(s: &[u8], found: Element, c: usize) -> &[u8]
    ensures { result.now ≡ text_in s.now found c }
{
    bytes_of(s, parts::component(s, found.once, c))
}

// Whether the element goes on behind its first occurrence.
pub(crate) fn is_repeated(s: &[u8], found: Element) -> bool
    ensures { result ≡ again_in s.now found }
{
    let end = found.once.to;
    if found.whole.to <= end {
        return false;
    }
    end < s.len()
}
