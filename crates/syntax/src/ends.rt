//! Where a segment ends, found before its parts are counted.

ghost use Rattle.std.specs.Prelude.{◌≡◌, ◌+◌, ◌≤◌, ◌<◌, length, get_or};
ghost use Rattle.laws.specs.Eight.{Word};
ghost use Rattle.syntax.specs.Passed.{passes_of, stops_of, eight_times};
ghost use Rattle.syntax.specs.Found.{end_from, told_of};
ghost use Rattle.syntax.specs.Ran.{RunTold, PastTold};

use crate::bytes::{permitted, released_end, wide};

/// Where a run of bytes that are passed over led. Both are an index; only the first has a byte, which is then looked at without a test of the index.
#[derive(Clone, Copy)]
pub(crate) enum Run {
    /// To a byte that is to be looked at.
    Stops(usize),
    /// To where fewer than eight bytes are left.
    Left(usize),
}

/// The eight bytes from an index on as one number, the first the lowest: a flat row of `|`, of which the compiler makes one load.
/// Unlike that of `raw_bytes` it tests nothing: the loops that call it have done so.
pub(crate) fn eight_at(s: &[u8], i: usize) -> u64
    requires { i + 8 ≤ length s.now }
    ensures { Word s.now i result }
{
    wide(s[i + 7]) * 72057594037927936
        | wide(s[i + 6]) * 281474976710656
        | wide(s[i + 5]) * 1099511627776
        | wide(s[i + 4]) * 4294967296
        | wide(s[i + 3]) * 16777216
        | wide(s[i + 2]) * 65536
        | wide(s[i + 1]) * 256
        | wide(s[i])
}

// 5, 31, 122, 88, 128, 32 and 127, each eight times.
const FIVE: u64 = 0x0505_0505_0505_0505;

const ROW: u64 = 0x1f1f_1f1f_1f1f_1f1f;

const FROM_SIX: u64 = 0x7a7a_7a7a_7a7a_7a7a;

const FROM_FORTY: u64 = 0x5858_5858_5858_5858;

const HIGHEST: u64 = 0x8080_8080_8080_8080;

const SPACES: u64 = 0x2020_2020_2020_2020;

const LOWEST: u64 = 0x7f7f_7f7f_7f7f_7f7f;

// The highest digit of each of eight bytes, set where the byte is passed over: it is one from `(` to `:`, or a letter. The other
// permitted bytes are too few to be worth telling apart here.
fn passes_in(x: u64) -> u64
    ensures { result ≡ passes_of eight_times x }
{
    let low = x & LOWEST;
    (((low + FIVE) & ROW) + FROM_SIX) & (low + FROM_FORTY) & (x ^ HIGHEST) & HIGHEST
}

/// The highest digit of each of eight bytes, set where the byte is not passed over and is not the space.
pub(crate) fn stops_in(x: u64) -> u64
    ensures { result ≡ stops_of eight_times x }
{
    (passes_in(x) ^ HIGHEST) & ((((x & LOWEST) ^ SPACES) + LOWEST) | x)
}

/// Past bytes that are passed over, eight at a time, to the first that is not, or to where fewer are left.
pub(crate) fn run_end(s: &[u8], from: usize) -> Run
    ensures { RunTold s.now from result }
{
    if s.len() < 8 {
        return Run::Left(from);
    }
    let last = s.len() - 8;
    let mut i = from;
    // The index moves by the eight bytes that are read at once.
    while i <= last {
        let passes = passes_in(eight_at(s, i));
        if passes != HIGHEST {
            return Run::Stops(i + (u64::trailing_zeros(passes ^ HIGHEST) / 8) as usize);
        }
        i += 8;
    }
    Run::Left(i)
}

/// The same, past the space as well, which costs a little more for eight bytes.
pub(crate) fn common_end(s: &[u8], from: usize) -> usize
    ensures { (from ≤ result) × (end_from s.now result ≡ end_from s.now from) }
{
    if s.len() < 8 {
        return from;
    }
    let last = s.len() - 8;
    let mut i = from;
    // The index moves by the eight bytes that are read at once.
    while i <= last {
        let stops = stops_in(eight_at(s, i));
        if stops != 0 {
            return i + (u64::trailing_zeros(stops) / 8) as usize;
        }
        i += 8;
    }
    i
}

// Past a byte that is no terminator: a release with those that follow it at once, or one byte. None where a byte is not permitted.
fn past_byte(s: &[u8], j: usize) -> Option<usize>
    requires { (j < length s.now) × (get_or s.now j 0 ≡ 39 → ⊥) }
    ensures { PastTold s.now j result }
{
    if !permitted(s[j]) {
        return None;
    }
    let k = j + 1;
    if s[j] != b'?' {
        return Some(k);
    }
    if s.len() <= k {
        return None;
    }
    if !permitted(s[k]) {
        return None;
    }
    Some(released_end(s, k + 1))
}

/// The terminator's index where the segment goes on from `from`, is ended and has no byte that is not permitted.
pub fn find_end(s: &[u8], from: usize) -> Option<usize>
    ensures { result ≡ told_of (length s.now) (end_from s.now from) }
{
    let mut i = from;
    // The index moves by what was read, not by one.
    while i < s.len() {
        let j = common_end(s, i);
        if s.len() <= j {
            return None;
        }
        if s[j] == b'\'' {
            return Some(j);
        }
        i = past_byte(s, j)?;
    }
    None
}
