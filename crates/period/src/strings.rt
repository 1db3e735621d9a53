//! The characters of days, eight at a time: where they end, and whether all bytes are such.

ghost use Rattle.std.specs.Prelude.{◌≡◌, ◌+◌, drop};
ghost use Rattle.laws.specs.Choice.{all};
ghost use Rattle.laws.specs.Leads.{run_of};
ghost use Rattle.period.specs.Period.{zero_or_one};

use raw_bytes::eight_at;

// Eight times `0`.
const ZEROS: usize = 0x3030_3030_3030_3030;

// All bits but the lowest of each byte: in these a `1` is as a `0`.
const ALIKE: usize = 0xfefe_fefe_fefe_fefe;

// Behind the `0` and `1` from an index on, one by one.
fn last_days_end(g: &[u8], from: usize) -> usize
    ensures { result ≡ from + run_of zero_or_one (drop from g.now) }
{
    let mut i = from;
    while i < g.len() {
        let b = g[i];
        if b < b'0' {
            return i;
        }
        if b'1' < b {
            return i;
        }
        i += 1;
    }
    i
}

// Behind the `0` and `1` that stand from an index on.
pub(crate) fn days_end(g: &[u8], from: usize) -> usize
    ensures { result ≡ from + run_of zero_or_one (drop from g.now) }
{
    let mut i = from;
    loop {
        let Some(word) = eight_at(g, i) else {
            return last_days_end(g, i);
        };
        if (word ^ ZEROS) & ALIKE != 0 {
            return last_days_end(g, i);
        }
        i += 8;
    }
}

/// Whether the bytes from an index on are `0` and `1`: the bits in which another byte differs are gathered, and tested once.
pub fn are_days(g: &[u8], from: usize) -> bool
    ensures { result ≡ all zero_or_one (drop from g.now) }
{
    let mut i = from;
    let mut other = 0usize;
    loop {
        let Some(word) = eight_at(g, i) else {
            if other != 0 {
                return false;
            }
            return g.len() <= last_days_end(g, i);
        };
        other |= (word ^ ZEROS) & ALIKE;
        i += 8;
    }
}
