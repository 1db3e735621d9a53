//! Where a segment ends that was begun before, whatever bytes it has.

#![tactic(auto)]

ghost use Rattle.std.specs.Prelude.{◌≡◌, Bool, false, ℕ, ◌+◌, ◌≤◌, ◌<◌, length, get_or};
ghost use Rattle.syntax.specs.Pieces.{first_piece};
ghost use Rattle.cuts.specs.Cuts.{released_after};
ghost use Rattle.cuts.specs.Laws.{Left, Gone};

use syntax::ends::find_end;

/// The end of a segment in some bytes.
// A caller asks for the one or for the other: the index where there is no terminator is the length of the first piece, as elsewhere.
#[derive(Clone, Copy)]
pub struct Ending {
    /// The terminator's index, or the number of bytes where there is none.
    pub at: usize,
    /// Whether the byte there is released, which none but the byte behind the last can be.
    pub released: bool,
}

// Past a byte that is neither released nor a terminator: a release goes with the byte behind it, which may be still to come.
fn past(s: &[u8], i: usize) -> usize
    requires { (i < length s.now) × (get_or s.now i 0 ≡ 39 → ⊥) }
    ensures { (i < result) × (result ≤ length s.now + 1) × ((n : ℕ) (flag : Bool) → Left s.now false i n flag → Gone s.now result n flag) }
{
    if s[i] == b'?' {
        return i + 2;
    }
    i + 1
}

// The first terminator from an index on that is not released, nor is the byte there.
fn search(s: &[u8], from: usize) -> Ending
    requires { from ≤ length s.now }
    ensures { Left s.now false from result.at result.released }
{
    // The index moves by what was read, not by one.
    let mut i = from;
    while i < s.len() {
        if s[i] == b'\'' {
            return Ending {
                at: i,
                released: false,
            };
        }
        i = past(s, i);
    }
    if s.len() < i {
        return Ending {
            at: s.len(),
            released: true,
        };
    }
    Ending {
        at: i,
        released: false,
    }
}

/// The first terminator among some bytes that is not released. The first byte may be released by one that came before. Most are found by a scan of eight
/// bytes at a time, which stops at a byte that is not permitted.
pub fn find_terminator(s: &[u8], released: bool) -> Ending
    ensures { (result.at ≡ length (first_piece 39 released s.now)) × (result.released ≡ released_after released (first_piece 39 released s.now)) }
{
    if released {
        if s.len() == 0 {
            return Ending {
                at: 0,
                released: true,
            };
        }
        return search(s, 1);
    }
    match find_end(s, 0) {
        Some(end) => Ending {
            at: end,
            released: false,
        },
        None => search(s, 0),
    }
}
