//! The number of a service as it stands in a slot: ten bytes, filled up with zeros. Most numbers hold no release; they are copied and
//! tested ten bytes at once, with no branch for any of them.

ghost use Rattle.std.specs.Prelude.{◌≡◌, true, ◌+◌, ◌≤◌, length, take, drop};
ghost use Rattle.laws.specs.Choice.{pick, all};
ghost use Rattle.free_texts.specs.Free.{quiet};
ghost use Rattle.syntax.specs.Bytes.{plain};
ghost use Rattle.parts.specs.Places.{bytes_of};
ghost use Rattle.service_entries.specs.Room.{number_bytes};

use parts::{Part, bytes_of};

/// A number after release.
#[derive(Clone, Copy)]
pub struct Number {
    /// As it stands in a slot.
    pub bytes: [u8; 10],
    /// How many characters it has.
    pub length: usize,
}

// A byte of a number, or 0 behind its end.
fn kept(b: u8, inside: bool) -> u8
    ensures { result ≡ pick inside b 0 }
{
    if inside { b } else { 0 }
}

// The n bytes from an index on, filled up to ten with zeros.
fn ten_at(s: &[u8], from: usize, n: usize) -> [u8; 10]
    requires { (from + 10 ≤ length s.now) × (n ≤ 10) }
    ensures { result ≡ number_bytes (take n (drop from s.now)) }
{
    let mut ten = [0u8; 10];
    for i in 0..10 {
        ten[i] = kept(s[from + i], i < n);
    }
    ten
}

// 1 for the release mark.
fn released(b: u8) -> usize
    ensures { (result ≤ 1) × (result ≡ 0 → quiet 63 b ≡ true) }
{
    if b == b'?' { 1 } else { 0 }
}

// Whether none of some bytes is the release mark.
fn is_quiet(number: &[u8]) -> bool
    ensures { result ≡ true → all (quiet 63) number.now ≡ true }
{
    let mut count = 0;
    for &b in number {
        count += released(b);
    }
    count == 0
}

// Whether a part has at most ten bytes, and ten stand from its start on.
fn is_near(s: &[u8], from: usize, to: usize) -> bool
    ensures { result ≡ true → (from ≤ to) × (to ≤ from + 10) × (from + 10 ≤ length s.now) }
{
    if to < from {
        return false;
    }
    if 10 < to - from {
        return false;
    }
    if s.len() < 10 {
        return false;
    }
    from <= s.len() - 10
}

// The number of any part in a slot, byte by byte.
fn plain_number(s: &[u8], part: Part) -> [u8; 10]
    ensures { result ≡ number_bytes (plain (bytes_of s.now part)) }
{
    let mut number = [0u8; 10];
    values::copy_plain(bytes_of(s, part), &mut number);
    number
}

// The number of any part.
fn any_number(s: &[u8], part: Part) -> Number
    ensures { (result.bytes ≡ number_bytes (plain (bytes_of s.now part))) × (result.length ≡ length (plain (bytes_of s.now part))) }
{
    let bytes = plain_number(s, part);
    let length = values::plain_length(bytes_of(s, part));
    Number { bytes, length }
}

/// The number of a service after release, and how long it is.
pub fn read_number(s: &[u8], part: Part) -> Number
    ensures { (result.bytes ≡ number_bytes (plain (bytes_of s.now part))) × (result.length ≡ length (plain (bytes_of s.now part))) }
{
    let from = part.from;
    let to = part.to;
    if !is_near(s, from, to) {
        return any_number(s, part);
    }
    let length = to - from;
    let bytes = ten_at(s, from, length);
    if is_quiet(&bytes) {
        return Number { bytes, length };
    }
    any_number(s, part)
}

/// The number of a service after release, as it stands in a slot.
pub fn number_of(s: &[u8], part: Part) -> [u8; 10]
    ensures { result ≡ number_bytes (plain (bytes_of s.now part)) }
{
    let number = read_number(s, part);
    number.bytes
}
