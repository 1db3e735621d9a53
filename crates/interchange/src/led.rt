//! Where the next segment leads a message, as its hint and a quick look at it tell.

ghost use Rattle.std.specs.Prelude.{◌≡◌, ◌+◌, ◌≤◌, ◌<◌, T, length};
ghost use Rattle.hints.specs.Told.{right};
ghost use Rattle.hints.specs.Laws.{Stood};
ghost use Rattle.hints.specs.Packing.{place_of};
ghost use Rattle.interchange.specs.Led.{Lettered, LedTold};

use crate::heads::{end_at, head_at};
use crate::packed::{Packed, next_place};
use placing::TAG;

/// Where a segment leads, and its terminator's index.
#[derive(Clone, Copy)]
pub(crate) struct Led {
    pub place: Packed,
    pub end: usize,
}

/// The row of the period that is read, and whether the caller asks for the old reading of it. Where none is read the row is one that no
/// table has: with an Option each segment would take one test more.
#[derive(Clone, Copy)]
pub(crate) struct PeriodRow {
    pub row: usize,
    pub wish: bool,
}

/// Where the segment at an offset leads from a place, a good period where the row reached is that of the period that is read. With none
/// the step has to tell.
pub(crate) fn lead_on(
    s: &[u8],
    at: usize,
    table: &[[u32; 8]],
    hints: &[[u16; 16]],
    place: Packed,
    period: PeriodRow,
) -> Option<Led>
    requires { (at + 4 ≤ length s.now) × (place.row < length hints.now) × (length hints.now ≡ length table.now) × T (right table.now hints.now) × Stood table.now (place_of place.row place.counts) × Lettered table.now × (length table.now ≤ 104) }
    ensures { LedTold s.now at table.now place.row place.counts period result }
{
    let head = head_at(s, at);
    let next = next_place(table, hints, place, head / 256)?;
    let to = next.row;
    let end = end_at(s, at, head, table[to][TAG], to == period.row, period.wish)?;
    Some(Led { place: next, end })
}
