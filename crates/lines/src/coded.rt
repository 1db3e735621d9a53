//! Bytes that a text names: `~` and two hexadecimal digits stand for one, any other byte for itself.

ghost use Rattle.std.specs.Prelude.{◌≡◌, ◌<◌, length};
ghost use Rattle.laws.specs.Put.{put_at};
ghost use Rattle.lines.specs.Coded.{hex_of, sign_at, fitting};

#[tactic(auto, unfolding(crate::specs::Coded::hex_of, crate::specs::Numbers::is_digit))]
fn hexadecimal(b: u8) -> u8
    ensures { (result ≡ hex_of b) × (result < 16) }
{
    match b {
        b'0'..=b'9' => b - b'0',
        b'A'..=b'F' => b - b'A' + 10,
        _ => 0,
    }
}

/// A byte that a text says, and the index past the sign for it.
#[derive(Clone, Copy)]
pub struct Sign {
    pub byte: u8,
    pub next: usize,
}

/// The sign at an index. A `~` with fewer than two bytes behind it stands for itself; past the end there is none.
pub fn sign_at(text: &[u8], i: usize) -> Option<Sign>
    ensures { result ≡ sign_at text.now i }
{
    if text.len() <= i {
        return None;
    }
    let b = text[i];
    if b != b'~' || text.len() - i < 3 {
        return Some(Sign {
            byte: b,
            next: i + 1,
        });
    }
    let high = hexadecimal(text[i + 1]);
    let low = hexadecimal(text[i + 2]);
    Some(Sign {
        byte: high * 16 + low,
        next: i + 3,
    })
}

/// What a text says over the front of the bytes lent, as far as they reach; how many bytes were written.
pub fn decode(text: &[u8], out: &mut [u8]) -> usize
    ensures value { result ≡ length (fitting text.now out.old) }
    ensures out_after { out.new ≡ put_at out.old 0 (fitting text.now out.old) }
{
    let mut n = 0;
    let mut i = 0;
    while let Some(sign) = sign_at(text, i) {
        if out.len() <= n {
            return n;
        }
        out[n] = sign.byte;
        n += 1;
        i = sign.next;
    }
    n
}
