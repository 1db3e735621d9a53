//! The reader over the lent interchange: the slice, and how far it has come ("The reader walks forward only").
//! Its functions are thin: each takes the struct apart and calls a function that takes a plain slice.

#![tactic(auto)]

ghost use Rattle.std.specs.Prelude.{◌≡◌};
ghost use Rattle.lent.specs.Lent.{offset_after, offset_past};
ghost use Rattle.lent.specs.Answer.{Told};

use answers::Refusal;
use syntax::segment::{read_segment, tag_at};

/// A segment: its tag, and the offset past its terminator.
#[derive(Clone, Copy, PartialEq, Eq, Debug)]
pub struct Segment {
    pub tag: u32,
    pub after: usize,
}

/// A reader over the lent interchange, remembering how far it has come.
#[derive(Clone, Copy)]
pub struct Reader<'a> {
    src: &'a [u8],
    at: usize,
}

/// The segment at an offset of an interchange, or none where the interchange is at its end. It is refused with 4, 5 or 6, and its place.
pub fn segment_at(s: &[u8], at: usize) -> Result<Option<Segment>, Refusal>
    ensures { Told s.now at result }
{
    if s.len() <= at {
        return Ok(None);
    }
    match read_segment(s, at) {
        Ok(end) => Ok(Some(Segment {
            tag: tag_at(s, at),
            after: end + 1,
        })),
        Err(error) => Err(error.refusal(at)),
    }
}

/// Where the reader stands once it has passed what stands at an offset.
pub fn offset_after(s: &[u8], at: usize) -> usize
    ensures { result ≡ offset_after s.now at }
{
    match segment_at(s, at) {
        Ok(Some(segment)) => segment.after,
        Ok(None) => at,
        Err(_) => at,
    }
}

/// Before the first byte.
pub fn new<'a>(src: &'a [u8]) -> Reader<'a>
    ensures { (result.src ≡ src.entry) × (result.at ≡ 0) }
{
    Reader { src, at: 0 }
}

/// What stands next.
pub fn next<'a>(r: Reader<'a>) -> Result<Option<Segment>, Refusal>
    ensures { Told r.entry.src.now r.entry.at result }
{
    segment_at(r.src, r.at)
}

/// The reader past the segment that `next` finds, or where it is if `next` finds none.
pub fn passed<'a>(r: Reader<'a>) -> Reader<'a>
    ensures { (result.src ≡ r.entry.src) × (result.at ≡ offset_after r.entry.src.now r.entry.at) }
{
    Reader {
        src: r.src,
        at: offset_after(r.src, r.at),
    }
}

/// What a reader finds once it has passed n segments of an interchange.
pub fn found_past(s: &[u8], n: usize) -> Result<Option<Segment>, Refusal>
    ensures { Told s.now (offset_past s.now n) result }
{
    let mut r = new(s);
    for _ in 0..n {
        r = passed(r);
    }
    next(r)
}
