//! What comes next of a parcel.

ghost use Rattle.std.specs.Prelude.{◌≡◌, true, ◌+◌, ◌≤◌, ◌<◌, length};
ghost use Rattle.parcels.specs.Onward.{Onward};
ghost use Rattle.parcels.specs.Passing.{Faster};
ghost use Rattle.parcels.specs.Pieces.{halted_at, unended_at, ReadyEnd, Standing, Went};

use crate::passing::{Progress, named, pass_cut, pass_one, pass_stretch};
use answers::Reason;
use cuts::find_terminator;
use interchange::{is_closed, is_inside};

/// The bytes of a segment, with its terminator, and of an interchange.
pub(crate) const SEGMENT: usize = 4096;

pub(crate) const INTERCHANGE: usize = 60000;

// Nothing more is read.
fn halted(x: Progress) -> Progress
    ensures { result ≡ halted_at x }
{
    Progress { ended: true, ..x }
}

// No segment ends in the next n bytes: where bytes follow, the first of them is one too many, of the interchange or else of the segment.
fn unended(x: Progress, n: usize, left: usize) -> Progress
    requires { x.kept.offset + x.kept.body + n ≤ 60000 }
    ensures { result ≡ unended_at x n left }
{
    let kept = x.kept;
    if left <= n {
        return halted(x);
    }
    if INTERCHANGE <= kept.offset + kept.body + n {
        return named(x, Reason::BadSize.at(0));
    }
    named(x, Reason::SegmentTooLong.at(kept.offset))
}

// A piece in which a segment ends, at an index.
fn pass_piece(store: &mut [u8], x: Progress, piece: &[u8], end: usize, rows: &mut [u32]) -> Progress
    requires { ReadyEnd x store.old piece.now end }
    ensures { Onward piece.now x store.old rows.old result store.new rows.new × Faster x result }
{
    let kept = x.kept;
    if 0 < kept.body || kept.released {
        return pass_cut(store, x, &piece[..end + 1], rows);
    }
    if is_inside(kept.state.phase) {
        return pass_stretch(store, x, piece, rows);
    }
    pass_one(store, x, &piece[..end + 1], rows)
}

/// The next segments of a parcel, or what its next byte shows.
pub(crate) fn go_on(store: &mut [u8], x: Progress, parcel: &[u8], rows: &mut [u32]) -> Progress
    requires { Standing x store.old × (x.at ≤ length parcel.now) }
    ensures { Went parcel.now x store.old rows.old result store.new rows.new }
{
    let kept = x.kept;
    let at = x.at;
    let left = parcel.len() - at;
    if left == 0 {
        return halted(x);
    }
    let arrived = kept.offset + kept.body;
    if INTERCHANGE <= arrived {
        return named(x, Reason::BadSize.at(0));
    }
    if is_closed(kept.state.phase) {
        return named(x, Reason::WrongEnvelope.at(kept.offset));
    }
    let n = left.min((SEGMENT - kept.body).min(INTERCHANGE - arrived));
    let piece = &parcel[at..at + n];
    let end = find_terminator(piece, kept.released).at;
    if end == n {
        return unended(x, n, left);
    }
    pass_piece(store, x, piece, end, rows)
}
