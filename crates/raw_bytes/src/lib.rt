//! Bytes and decimal digits put into a lent buffer, small numbers and bytes as sizes, and eight bytes as one number.

#![tactic(auto)]

ghost use Rattle.std.specs.Prelude.{◌≡◌, ◌+◌, ◌*◌, ◌<◌, ◌≤◌, leb, length, get_or, drop};
ghost use Rattle.laws.specs.Put.{put_at};
ghost use Rattle.laws.specs.Decimal.{decimal_of};
ghost use Rattle.raw_bytes.specs.Eights.{EightTold};
ghost use Rattle.raw_bytes.specs.Differing.{differs_of};

// The highest bit of each of eight bytes, and the others.
const HIGH: usize = 0x8080_8080_8080_8080;

const LOW: usize = 0x7f7f_7f7f_7f7f_7f7f;

/// Bytes copied to an offset; where there is no room for all of them, none is. Whether there was room.
pub fn put_bytes(out: &mut [u8], at: usize, bytes: &[u8]) -> bool
    ensures { (result ≡ leb (at + length bytes.now) (length out.old)) × (out.new ≡ put_at out.old at bytes.now) }
{
    if out.len() < bytes.len() || out.len() - bytes.len() < at {
        return false;
    }
    out[at..at + bytes.len()].copy_from_slice(bytes);
    true
}

// The bytes from an index on, put at an offset; how many they are.
fn put_from(out: &mut [u8], at: usize, bytes: &[u8], from: usize) -> usize
    requires { from ≤ length bytes.now }
    ensures told { result ≡ length (drop from bytes.now) }
    ensures left { out.new ≡ put_at out.old at (drop from bytes.now) }
{
    put_bytes(out, at, &bytes[from..]);
    bytes.len() - from
}

/// A number in decimal digits, with no leading zero, put at an offset; how many they are. Where there is no room for all of them, none is
/// put.
pub fn put_decimal(out: &mut [u8], at: usize, n: usize) -> usize
    ensures told { (result ≤ 20) × (result ≡ length (decimal_of n)) }
    ensures left { out.new ≡ put_at out.old at (decimal_of n) }
{
    let mut digits = [0u8; 20];
    let mut left = n;
    for from in (0..20).rev() {
        digits[from] = b'0' + (left % 10) as u8;
        if left < 10 {
            return put_from(out, at, &digits, from);
        }
        left /= 10;
    }
    put_from(out, at, &digits, 0)
}

/// A byte as a size.
pub fn wide_byte(b: u8) -> usize
    ensures { (result ≡ b) × (result < 256) }
{
    usize::from(b)
}

/// A number of 32 bits as a size.
pub fn wide(n: u32) -> usize
    ensures { (result ≡ n) × (result < 4294967296) }
{
    n as usize
}

/// The byte at an index; past the end it reads as 0.
pub fn byte_at(b: &[u8], at: usize) -> usize
    ensures { (result ≡ get_or b.now at 0) × (result < 256) }
{
    b.get(at).map_or(0, |x| wide_byte(*x))
}

/// The number in two bytes, the lower first; bytes past the end read as 0.
pub fn number_at(b: &[u8], at: usize) -> usize
    ensures { (result ≡ get_or b.now at 0 + 256 * get_or b.now (at + 1) 0) × (result < 65536) }
{
    if b.len() <= at {
        return 0;
    }
    byte_at(b, at) + 256 * byte_at(b, at + 1)
}

/// The eight bytes from an index on as one number, the first in the lowest bits, where so many stand there: a flat row of `|`, of which the compiler
/// makes one load. The library's `from_le_bytes` adds, and of a sum it makes eight.
pub fn eight_at(s: &[u8], at: usize) -> Option<usize>
    ensures { EightTold s.now at result }
{
    if s.len() < 8 || s.len() - 8 < at {
        return None;
    }
    Some(
        wide_byte(s[at + 7]) * 72057594037927936
            | wide_byte(s[at + 6]) * 281474976710656
            | wide_byte(s[at + 5]) * 1099511627776
            | wide_byte(s[at + 4]) * 4294967296
            | wide_byte(s[at + 3]) * 16777216
            | wide_byte(s[at + 2]) * 65536
            | wide_byte(s[at + 1]) * 256
            | wide_byte(s[at]),
    )
}

/// The highest bits of those of eight bytes that differ from a pattern's by too much: the room, at most 127 for each byte, is what may be
/// added to a difference before its highest bit is set.
pub fn differing(word: usize, pattern: usize, room: usize) -> usize
    ensures { result ≡ differs_of word pattern room }
{
    let x = word ^ pattern;
    (x | ((x & LOW) + (room & LOW))) & HIGH
}
