//! Where a segment stands.

ghost use Rattle.std.specs.Prelude.{◌≡◌, ◌+◌, length};
ghost use Rattle.syntax.specs.Segment.{body_at};
ghost use Rattle.parts.specs.Places.{segment_of};

use crate::Part;
use syntax::ends::find_end;

// The index of the first terminator from an offset on, or the input's length.
fn end_of(s: &[u8], from: usize) -> usize
    ensures { result ≡ from + length (body_at s.now from) }
{
    let mut released = false;
    for i in from..s.len() {
        let b = s[i];
        if released {
            released = false;
        } else if b == b'\'' {
            return i;
        } else {
            released = b == b'?';
        }
    }
    from.max(s.len())
}

/// Where the segment at an offset stands: up to its terminator, or to the input's end.
pub fn segment_at(s: &[u8], at: usize) -> Part
    ensures { result ≡ segment_of s.now at }
{
    let to = match find_end(s, at) {
        Some(end) => end,
        None => end_of(s, at),
    };
    Part { from: at, to }
}
