//! A place in two numbers: its row, and the counts of all its levels in one. A hint moves it on in a few instructions.

ghost use Rattle.std.specs.Prelude.{◌≡◌, ◌<◌, T, length, IfSome};
ghost use Rattle.hints.specs.Told.{right};
ghost use Rattle.hints.specs.Laws.{Stood};
ghost use Rattle.hints.specs.Packing.{place_of};
ghost use Rattle.interchange.specs.Packs.{narrow, Packs, Leads};

use hints::{bound_of, kept_mask, more_of, slot_of};
use placing::{LEVEL, Place, entry};

/// A packed place.
#[derive(Clone, Copy)]
pub(crate) struct Packed {
    pub row: usize,
    pub counts: u64,
}

impl Packed {
    /// The place of its row and counts.
    pub(crate) fn unpack(self) -> Place
        ensures { result ≡ place_of self.row self.counts }
    {
        let counts = self.counts;
        Place {
            row: self.row,
            c0: (counts % 16384) as u32,
            c1: ((counts >> 14) % 16384) as u32,
            c2: ((counts >> 28) % 16384) as u32,
            c3: ((counts >> 42) % 16384) as u32,
            c4: (counts >> 56) as u32,
        }
    }
}

// Whether each count has room in its bits.
fn is_narrow(place: Place) -> bool
    ensures { result ≡ narrow place }
{
    place.c0 < 16384 && place.c1 < 16384 && place.c2 < 16384 && place.c3 < 16384 && place.c4 < 256
}

/// A place of a table that has room and that has itself come.
pub(crate) fn pack(place: Place, table: &[[u32; 8]]) -> Option<Packed>
    ensures { IfSome result (λ packed. Packs table.now place packed.row packed.counts) }
{
    let row = place.row;
    let level = entry(table, row, LEVEL);
    if table.len() <= row {
        return None;
    }
    if 4 < level {
        return None;
    }
    if !is_narrow(place) {
        return None;
    }
    let counts = place.c0 as u64
        + place.c1 as u64 * 0x4000
        + place.c2 as u64 * 0x1000_0000
        + place.c3 as u64 * 0x400_0000_0000
        + place.c4 as u64 * 0x100_0000_0000_0000;
    if (counts >> (14 * level)) % 16384 == 0 {
        return None;
    }
    Some(Packed { row, counts })
}

/// The place to which the hint for a tag leads, where there is room for it there. Whether the tag is the one of that row is not tested.
pub(crate) fn next_place(
    table: &[[u32; 8]],
    hints: &[[u16; 16]],
    place: Packed,
    tag: u32,
) -> Option<Packed>
    requires { (place.row < length hints.now) × (length hints.now ≡ length table.now) × T (right table.now hints.now) × Stood table.now (place_of place.row place.counts) }
    ensures { IfSome result (λ next. Leads table.now place.row place.counts next.row next.counts) }
{
    let hint = hints[place.row][slot_of(tag)];
    let to = (hint / 32) as usize;
    let kind = (hint % 32) as usize;
    let kept = place.counts & kept_mask(kind);
    if bound_of(kind) <= kept {
        return None;
    }
    Some(Packed {
        row: to,
        counts: kept + more_of(kind),
    })
}
