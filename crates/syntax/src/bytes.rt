//! Which bytes may stand in an interchange.

ghost use Rattle.std.specs.Prelude.{◌≡◌, ◌+◌, ◌*◌, ◌<◌, drop};
ghost use Rattle.syntax.specs.Bytes.{permitted_of, plain_text, is_mark};
ghost use Rattle.syntax.specs.Released.{release_run};
ghost use Rattle.syntax.specs.Masks.{in_mask};

// A bit for each permitted byte below 64, and for each from 64 to 127.
const PERMITTED_LOW: u64 = 18446743966335369216;

const PERMITTED_HIGH: u64 = 576460745995190270;

// The same without the five service characters, which all stand below 64.
const TEXT_LOW: u64 = 8935127809433534464;

// Whether a byte's bit is set in a mask of 128 bits.
fn in_mask(low: u64, high: u64, b: u8) -> bool
    ensures { result ≡ in_mask low high b }
{
    if b < 64 {
        return (low >> b) & 1 == 1;
    }
    if b < 128 {
        return (high >> (b - 64)) & 1 == 1;
    }
    false
}

/// Whether a byte is permitted, released or not.
pub fn permitted(b: u8) -> bool
    ensures { result ≡ permitted_of b }
{
    in_mask(PERMITTED_LOW, PERMITTED_HIGH, b)
}

/// Whether a byte is permitted and no service character.
pub(crate) fn is_text(b: u8) -> bool
    ensures { result ≡ plain_text b }
{
    in_mask(TEXT_LOW, PERMITTED_HIGH, b)
}

/// The index past the releases of permitted bytes that stand one after the other from `from` on.
pub(crate) fn released_end(s: &[u8], from: usize) -> usize
    ensures { result ≡ from + 2 * release_run (drop from s.now) }
{
    if s.len() < 2 {
        return from;
    }
    let last = s.len() - 2;
    let mut i = from;
    // The index moves by two, past a release and the byte behind it.
    while i <= last {
        if s[i] != b'?' {
            return i;
        }
        if !permitted(s[i + 1]) {
            return i;
        }
        i += 2;
    }
    i
}

/// Whether a byte is `+`, `*` or `:`.
#[tactic(auto, unfolding(crate::specs::Bytes::is_mark))]
pub(crate) fn is_mark(b: u8) -> bool
    ensures { result ≡ is_mark b }
{
    matches!(b, b'+' | b'*' | b':')
}

/// A byte as a number of 64 bits. It stands for a conversion, as its contract bounds the number: sums and products of it then fit.
pub(crate) fn wide(b: u8) -> u64
    ensures { (result ≡ b) × (result < 256) }
{
    b as u64
}
