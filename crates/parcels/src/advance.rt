//! A whole parcel.

ghost use Rattle.std.specs.Prelude.{◌≡◌, ◌≤◌, length};
ghost use Rattle.parcel_store.specs.declared.Final.TheVariants.{Awaited};
ghost use Rattle.parcel_store.specs.Store.{store_size};
ghost use Rattle.parcels.specs.Onward.{Sized};
ghost use Rattle.parcels.specs.Pieces.{Tail};
ghost use Rattle.parcels.specs.Whole.{is_awaited, Held, Advanced};

use crate::passing::Progress;
use crate::pieces::go_on;
use cuts::find_terminator;
use parcel_store::{BODY, Final, Kept};
use raw_bytes::put_bytes;

/// Whether the final answer is still to come.
pub(crate) fn is_awaited(answer: Final) -> bool
    ensures { result ≡ is_awaited answer }
{
    matches!(answer, Final::Awaited)
}

// The bytes at the parcel's end that no terminator follows are kept.
fn hold(store: &mut [u8], x: Progress, parcel: &[u8]) -> Progress
    requires { (length store.old ≡ store_size) × Sized x.kept × (x.at ≤ length parcel.now) × Tail parcel.now x store.old }
    ensures { Held parcel.now x store.old result store.new }
{
    let kept = x.kept;
    if !is_awaited(kept.answer) {
        return x;
    }
    let rest = &parcel[x.at..];
    put_bytes(store, BODY + kept.body, rest);
    let ending = find_terminator(rest, kept.released);
    Progress {
        kept: Kept {
            body: kept.body + rest.len(),
            released: ending.released,
            answer: Final::Awaited,
            ..kept
        },
        at: parcel.len(),
        ended: true,
        ..x
    }
}

/// Reads a parcel from what is kept on; its rows go to the front of the buffer lent, as far as there is room for each stretch of them.
pub(crate) fn advance(store: &mut [u8], from: Kept, parcel: &[u8], rows: &mut [u32]) -> Progress
    requires { (length store.old ≡ store_size) × Sized from × (from.answer ≡ Awaited) }
    ensures { Advanced parcel.now from store.old rows.old result store.new rows.new }
{
    let mut x = Progress {
        kept: from,
        at: 0,
        numbers: 0,
        ended: false,
    };
    while !x.ended {
        x = go_on(store, x, parcel, rows);
    }
    hold(store, x, parcel)
}
