//! What a segment begins with, its tag and the byte behind it, and where it ends.

ghost use Rattle.std.specs.Prelude.{◌≡◌, true, Some, Ok, ℕ, ◌+◌, ◌/◌, ◌≤◌, length};
ghost use Rattle.laws.specs.Choice.{pick};
ghost use Rattle.syntax.specs.Segment.{body_at, segment_at};
ghost use Rattle.period.specs.Period.{is_good, period_of};
ghost use Rattle.interchange.specs.Heads.{four_at, head_at, Bytes, capitals};

use period::pop_at;
use syntax::segment::quick_end;

fn wide(b: u8) -> u32
    ensures { result ≡ b }
{
    b as u32
}

// Four bytes as they stand in memory, so that they are read at once.
fn four_at(s: &[u8], at: usize) -> u32
    requires { at + 4 ≤ length s.now }
    ensures { (result ≡ four_at s.now at) × Bytes s.now at }
{
    wide(s[at])
        + wide(s[at + 1]) * 0x100
        + wide(s[at + 2]) * 0x1_0000
        + wide(s[at + 3]) * 0x100_0000
}

/// The four bytes from an offset on as one number, the first highest.
pub(crate) fn head_at(s: &[u8], at: usize) -> u32
    requires { at + 4 ≤ length s.now }
    ensures { (result ≡ head_at s.now at) × Bytes s.now at }
{
    let four = four_at(s, at);
    four % 256 * 0x100_0000
        + four / 0x100 % 256 * 0x1_0000
        + four / 0x1_0000 % 256 * 0x100
        + four / 0x100_0000
}

// The end of a good POP.
fn pop_end(s: &[u8], at: usize, wish: bool) -> Option<usize>
    ensures { (e : ℕ) → result ≡ Some e → (segment_at s.now at ≡ Ok e) × (is_good (period_of wish (body_at s.now at)) ≡ true) }
{
    let pop = pop_at(s, at, wish)?;
    Some(pop.end)
}

/// The end of a segment with a given tag and a mark behind it, where it is small, or a good POP where it is read as one. The tag and the mark
/// take one test.
pub(crate) fn end_at(
    s: &[u8],
    at: usize,
    head: u32,
    tag: u32,
    read: bool,
    wish: bool,
) -> Option<usize>
    requires { (at + 4 ≤ length s.now) × Bytes s.now at × (head ≡ head_at s.now at) × (head / 256 ≡ tag → capitals s.now at ≡ true) }
    ensures { (e : ℕ) → result ≡ Some e → (segment_at s.now at ≡ Ok e) × (head / 256 ≡ tag) × (pick read (is_good (period_of wish (body_at s.now at))) true ≡ true) }
{
    let wanted = tag as u64 * 256;
    let found = head as u64;
    if found == wanted + 43 {
        if read {
            return pop_end(s, at, wish);
        }
        return quick_end(s, at);
    }
    if read {
        return None;
    }
    if found == wanted + 39 {
        return Some(at + 3);
    }
    None
}
