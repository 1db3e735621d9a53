//! A number's ten bytes as two numbers, the first byte the highest, so that they are compared at once and not byte by byte.

ghost use Rattle.std.specs.Prelude.{◌≡◌};
ghost use Rattle.slots.specs.Words.{high_of, low_of, rises_to};

use raw_bytes::byte_at;

/// The first eight bytes as one number: a flat row of `|`, of which the compiler makes one load.
pub fn high(x: &[u8]) -> usize
    ensures { result ≡ high_of x.now }
{
    byte_at(x, 0) * 72057594037927936
        | byte_at(x, 1) * 281474976710656
        | byte_at(x, 2) * 1099511627776
        | byte_at(x, 3) * 4294967296
        | byte_at(x, 4) * 16777216
        | byte_at(x, 5) * 65536
        | byte_at(x, 6) * 256
        | byte_at(x, 7)
}

/// The two bytes behind them.
pub fn low(x: &[u8]) -> usize
    ensures { result ≡ low_of x.now }
{
    byte_at(x, 8) * 256 + byte_at(x, 9)
}

/// Whether one number comes before another, h and l before k and m.
pub fn rises(h: usize, l: usize, k: usize, m: usize) -> bool
    ensures { result ≡ rises_to h l k m }
{
    if h < k {
        return true;
    }
    if k < h {
        return false;
    }
    l < m
}
