//! The segment that starts at an offset: its end, or what is wrong with it; and its tag.

ghost use Rattle.std.specs.Prelude.{◌≡◌, not, Ok, Err, ◌+◌, ◌≤◌, ◌<◌, min, eqb, leb, length, drop};
ghost use Rattle.laws.specs.Choice.{pick, both};
ghost use Rattle.syntax.specs.Segment.{capital, segment_at, scanned_answer, refusal_of, scanned_refusal, segment_answer, tag_number};
ghost use Rattle.syntax.specs.Tags.{tag_closes, tag_ahead};
ghost use Rattle.syntax.specs.Found.{end_from, told_of};
ghost use Rattle.syntax.specs.Quick.{quick_of};

use crate::bytes::{is_mark, permitted, released_end, wide};
use crate::ends::{Run, common_end, find_end, run_end};
use crate::limits::Counts;
use crate::marks::is_small;
use crate::texts::text_end;
use answers::{Reason, Refusal};

/// Why no whole segment stands at an offset.
#[derive(Clone, Copy, PartialEq, Eq, Debug)]
pub enum ScanError {
    /// 4: the index of the first byte that is not permitted.
    NotPermitted(usize),
    /// 5: the input ends inside the segment.
    Unended,
    /// 6: the tag or a limit.
    Malformed,
}

impl ScanError {
    /// The refusal of what was found at an offset.
    pub fn refusal(self, at: usize) -> Refusal
        ensures { result ≡ refusal_of at self }
    {
        match self {
            ScanError::NotPermitted(i) => Reason::ByteNotPermitted.at(i),
            ScanError::Unended => Reason::InputEnds.at(at),
            ScanError::Malformed => Reason::WrongSegment.at(at),
        }
    }
}

/// The refusal of a scan at an offset; none where the segment is whole.
pub fn refusal_of_scan(scanned: Result<usize, ScanError>, at: usize) -> Option<Refusal>
    ensures { result ≡ scanned_refusal at scanned }
{
    match scanned {
        Ok(_) => None,
        Err(error) => Some(error.refusal(at)),
    }
}

fn is_capital(b: u8) -> bool
    ensures { result ≡ capital b }
{
    matches!(b, b'A'..=b'Z')
}

// Whether four bytes are three capital letters and `+` or the terminator.
fn is_tag(a: u8, b: u8, c: u8, d: u8) -> bool
    ensures { result ≡ both (capital a) (both (capital b) (both (capital c) (tag_closes d))) }
{
    is_capital(a) && is_capital(b) && is_capital(c) && matches!(d, b'+' | b'\'')
}

// Whether a segment at an offset begins with a tag.
fn is_tagged(s: &[u8], at: usize) -> bool
    ensures { result ≡ tag_ahead (drop at s.now) }
{
    if s.len() < 4 {
        return false;
    }
    if s.len() - 4 < at {
        return false;
    }
    is_tag(s[at], s[at + 1], s[at + 2], s[at + 3])
}

// The index 513 bytes past an offset, or the input's length n where that is less.
fn near(at: usize, n: usize) -> usize
    requires { at ≤ n }
    ensures { result ≡ min n (at + 513) }
{
    at + usize::min(n - at, 513)
}

// The same as `find_end`, except that no more than 513 bytes from an offset on are looked at. Most ends are found here, without that call.
fn near_end(s: &[u8], at: usize, from: usize) -> Option<usize>
    requires { at ≤ length s.now }
    ensures { result ≡ told_of (min (length s.now) (at + 513)) (end_from s.now from) }
{
    let cut = near(at, s.len());
    let j = common_end(&s[..cut], from);
    if j < cut {
        if s[j] == b'\'' {
            return Some(j);
        }
    }
    find_end(&s[..cut], j)
}

// The end of a segment that is told at once, where the end is found already.
fn long_end(s: &[u8], at: usize, end: usize) -> Option<usize>
    requires { (at + 34 < end) × (end < length s.now) × (end ≡ end_from s.now (at + 4)) }
    ensures { result ≡ quick_of s.now at }
{
    if 512 < end - at {
        return None;
    }
    if is_small(&s[at..end]) {
        return Some(end);
    }
    None
}

// The same from a byte on before which the segment does not end, which may be its end. In a function of its own, so that little is left where the end is
// found at once and is near.
fn small_end(s: &[u8], at: usize, from: usize) -> Option<usize>
    requires { (at + 4 ≤ length s.now) × (end_from s.now from ≡ end_from s.now (at + 4)) × (at ≤ from) }
    ensures { result ≡ quick_of s.now at }
{
    if 34 < from - at {
        if from < s.len() {
            if s[from] == b'\'' {
                return long_end(s, at, from);
            }
        }
    }
    let end = near_end(s, at, from)?;
    if end - at <= 34 {
        return Some(end);
    }
    long_end(s, at, end)
}

// Whether a byte is the terminator and the segment before it has at most 34 bytes, in one test.
fn closes(b: u8, n: usize) -> bool
    ensures { result ≡ both (eqb b 39) (leb n 34) }
{
    ((b ^ b'\'') as usize * 256) | n <= 34
}

/// The end of a segment that has too few characters and marks to pass a limit, its tag with the `+` behind it at an offset.
pub fn quick_end(s: &[u8], at: usize) -> Option<usize>
    ensures { result ≡ quick_of s.now at }
{
    if s.len() < 4 {
        return None;
    }
    if s.len() - 4 < at {
        return None;
    }
    match run_end(s, at + 4) {
        Run::Stops(j) => {
            if closes(s[j], j - at) {
                return Some(j);
            }
            small_end(s, at, j)
        }
        Run::Left(j) => small_end(s, at, j),
    }
}

/// The segment that starts at an offset. Its end is found first; its parts are counted only where it may pass a limit, or is to be refused.
pub fn read_segment(s: &[u8], at: usize) -> Result<usize, ScanError>
    ensures scan { result ≡ segment_at s.now at }
    ensures said { scanned_answer at result ≡ segment_answer s.now at }
{
    if is_tagged(s, at) {
        if s[at + 3] == b'\'' {
            return Ok(at + 3);
        }
        if let Some(end) = small_end(s, at, at + 4) {
            return Ok(end);
        }
    }
    counted(s, at)
}

// The same in one pass over its bytes that counts its parts, a run of plain text at a time.
fn counted(s: &[u8], at: usize) -> Result<usize, ScanError>
    ensures { result ≡ segment_at s.now at }
{
    let tagged = is_tagged(s, at);
    let mut i = at;
    let mut counts = Counts::none();
    // The index moves by what was read, not by one.
    while i < s.len() {
        let j = text_end(s, i);
        if s.len() <= j {
            return Err(ScanError::Unended);
        }
        let b = s[j];
        counts = counts.text(j - i);
        if b == b'\'' {
            return ended(tagged, counts.over, j);
        }
        if b == b'?' {
            let k = j + 1;
            if s.len() <= k {
                return Err(ScanError::Unended);
            }
            if !permitted(s[k]) {
                return Err(ScanError::NotPermitted(k));
            }
            i = released_end(s, k + 1);
            counts = counts.text((i - j) / 2);
        } else {
            if !is_mark(b) {
                return Err(ScanError::NotPermitted(j));
            }
            counts = counts.mark(b);
            i = j + 1;
        }
    }
    Err(ScanError::Unended)
}

// At the terminator.
fn ended(tagged: bool, over: bool, end: usize) -> Result<usize, ScanError>
    ensures { result ≡ pick (both tagged (not over)) (Ok end) (Err ScanError.Malformed) }
{
    if tagged && !over {
        Ok(end)
    } else {
        Err(ScanError::Malformed)
    }
}

/// The three bytes at an offset as one number, 0 where there are fewer: the definition `tag_number`, on which the tables' theorems stand, fixes that.
pub fn tag_at(s: &[u8], at: usize) -> u32
    ensures { result ≡ tag_number (drop at s.now) }
{
    if s.len() < 3 {
        return 0;
    }
    if s.len() - 3 < at {
        return 0;
    }
    (wide(s[at]) * 65536 + wide(s[at + 1]) * 256 + wide(s[at + 2])) as u32
}
