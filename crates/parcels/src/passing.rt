//! The segments of a parcel: one by itself, with its references, or a stretch of those of a message.

ghost use Rattle.std.specs.Prelude.{◌≡◌, ◌+◌, ◌≤◌, ◌<◌, length, drop};
ghost use Rattle.laws.specs.Choice.{pick};
ghost use Rattle.laws.specs.Put.{put_at};
ghost use Rattle.laws.specs.Filled.{filled_up};
ghost use Rattle.syntax.specs.Segment.{segment_at};
ghost use Rattle.parts.specs.Places.{bytes_of};
ghost use Rattle.placing.specs.Tables as placing;
ghost use Rattle.interchange.specs.Reader.{turn_with};
ghost use Rattle.arrival.specs.Arrived as arrival;
ghost use Rattle.parcel_store.specs.Store.{part_size, dialogue_place, reference_place, put_part, stand_of};
ghost use Rattle.parcels.specs.Onward.{Sized, Onward, answered_kept, named_at};
ghost use Rattle.parcels.specs.Passing.{passed_kept, passed_store, Ready, ReadyPiece, ReadyStretch, Faster};

use crate::rows::put_rows;
use answers::Refusal;
use interchange::counted;
use interchange::stretch::read_stretch;
use interchange::turn::{Turn, turn_with};
use parcel_store::{BODY, DIALOGUE, Final, Kept, REFERENCE};
use parts::{Part, bytes_of};
use raw_bytes::put_bytes;
use segment_tables::tables;
use steps::state::{Phase, State, one_more};

/// How far a parcel is read.
#[derive(Clone, Copy)]
pub(crate) struct Progress {
    pub kept: Kept,
    /// The bytes of the parcel that are read.
    pub at: usize,
    /// The numbers of the rows that are read.
    pub numbers: usize,
    /// Nothing more is read: the final answer is there, or no segment ends in the rest.
    pub ended: bool,
}

/// The final answer is there, and no byte of a segment is kept.
pub(crate) fn answered(kept: Kept, answer: Final) -> Kept
    ensures { result ≡ answered_kept kept answer }
{
    Kept {
        body: 0,
        released: false,
        answer,
        ..kept
    }
}

/// A fault is named.
pub(crate) fn named(x: Progress, refusal: Refusal) -> Progress
    ensures { result ≡ named_at x refusal }
{
    Progress {
        kept: answered(x.kept, Final::Refused(refusal)),
        ended: true,
        ..x
    }
}

// A reference, filled up with zeros.
fn put_part(store: &mut [u8], at: usize, text: &[u8])
    requires { length text.now ≤ part_size }
    ensures { store.new ≡ put_at store.old at (filled_up part_size text.now) }
{
    let mut filled = [0u8; 4096];
    put_bytes(&mut filled, 0, text);
    put_bytes(store, at, &filled);
}

// Whether a segment that is read in a phase is the UIB.
fn opens(before: Phase) -> bool
    ensures { result ≡ arrival.opens before }
{
    matches!(before, Phase::Opening)
}

// Whether a segment that leads from one phase to another is a UIH.
fn heads(before: Phase, after: Phase) -> bool
    ensures { result ≡ arrival.heads before after }
{
    matches!((before, after), (Phase::Between, Phase::Inside))
}

// The dialogue reference that a segment brings is kept; its length, or that of the one that is kept already.
fn keep_dialogue(store: &mut [u8], kept: Kept, next: State, segment: &[u8]) -> usize
    requires { (length segment.now ≤ part_size) × (kept.dialogue ≤ part_size) }
    ensures told { (result ≡ pick (arrival.opens kept.state.phase) (length (bytes_of segment.now next.dialogue)) kept.dialogue) × (result ≤ part_size) }
    ensures left { store.new ≡ put_part (arrival.opens kept.state.phase) store.old dialogue_place (bytes_of segment.now next.dialogue) }
{
    if !opens(kept.state.phase) {
        return kept.dialogue;
    }
    let text = bytes_of(segment, next.dialogue);
    put_part(store, DIALOGUE, text);
    text.len()
}

// The reference 0340 that a segment brings, likewise.
fn keep_reference(store: &mut [u8], kept: Kept, next: State, segment: &[u8]) -> usize
    requires { (length segment.now ≤ part_size) × (kept.reference ≤ part_size) }
    ensures told { (result ≡ pick (arrival.heads kept.state.phase next.phase) (length (bytes_of segment.now next.reference)) kept.reference) × (result ≤ part_size) }
    ensures left { store.new ≡ put_part (arrival.heads kept.state.phase next.phase) store.old reference_place (bytes_of segment.now next.reference) }
{
    if !heads(kept.state.phase, next.phase) {
        return kept.reference;
    }
    let text = bytes_of(segment, next.reference);
    put_part(store, REFERENCE, text);
    text.len()
}

// The turn of one segment with the references that are kept.
fn lent_turn(store: &[u8], kept: Kept, segment: &[u8]) -> Result<Turn, Refusal>
    requires { Sized kept }
    ensures { result ≡ turn_with placing.tables segment.now (stand_of kept store.now).dialogue (stand_of kept store.now).reference kept.state 0 (segment_at segment.now 0) }
{
    let dialogue = bytes_of(
        store,
        Part {
            from: DIALOGUE,
            to: DIALOGUE + kept.dialogue,
        },
    );
    let reference = bytes_of(
        store,
        Part {
            from: REFERENCE,
            to: REFERENCE + kept.reference,
        },
    );
    let all = tables();
    turn_with(segment, kept.state, 0, dialogue, reference, &all)
}

// What is kept after one segment.
fn passed(store: &mut [u8], kept: Kept, next: State, segment: &[u8], size: usize) -> Kept
    requires { Sized kept × (length segment.now ≤ part_size) × (kept.offset + size < 65536) }
    ensures told { (result ≡ passed_kept kept segment.now next size) × Sized result }
    ensures left { store.new ≡ passed_store kept segment.now next store.old }
{
    let dialogue = keep_dialogue(store, kept, next, segment);
    let reference = keep_reference(store, kept, next, segment);
    Kept {
        state: next,
        offset: kept.offset + size,
        body: 0,
        released: false,
        dialogue,
        reference,
        count: one_more(kept.count),
        answer: Final::Awaited,
    }
}

/// One segment with its terminator, of which the first bytes came before.
pub(crate) fn pass_one(store: &mut [u8], x: Progress, segment: &[u8], rows: &mut [u32]) -> Progress
    requires { Ready x store.old segment.now }
    ensures { Onward (drop x.kept.body segment.now) x store.old rows.old result store.new rows.new × Faster x result }
{
    let kept = x.kept;
    match lent_turn(store, kept, segment) {
        Ok(turn) => {
            let row = turn.row;
            let one = [0, row.group, row.tag];
            put_rows(&one, 3, rows, x.numbers, kept.offset);
            let after = passed(
                store,
                kept,
                turn.state,
                &segment[..turn.then - 1],
                segment.len(),
            );
            Progress {
                kept: after,
                at: x.at + (segment.len() - kept.body),
                numbers: x.numbers + 3,
                ended: false,
            }
        }
        Err(refusal) => named(
            x,
            Refusal {
                position: kept.offset + refusal.position,
                ..refusal
            },
        ),
    }
}

/// One segment whose first bytes are in the store: only such a segment is copied.
pub(crate) fn pass_cut(store: &mut [u8], x: Progress, piece: &[u8], rows: &mut [u32]) -> Progress
    requires { ReadyPiece x store.old piece.now }
    ensures { Onward piece.now x store.old rows.old result store.new rows.new × Faster x result }
{
    let kept = x.kept;
    let n = kept.body;
    let mut cut = [0u8; 4096];
    put_bytes(
        &mut cut,
        0,
        bytes_of(
            store,
            Part {
                from: BODY,
                to: BODY + n,
            },
        ),
    );
    put_bytes(&mut cut, n, piece);
    pass_one(store, x, &cut[..n + piece.len()], rows)
}

/// The whole segments of a message at the front of some bytes, read where they are.
pub(crate) fn pass_stretch(store: &[u8], x: Progress, piece: &[u8], rows: &mut [u32]) -> Progress
    requires { ReadyStretch x store.now piece.now }
    ensures { Onward piece.now x store.now rows.old result store.now rows.new × Faster x result }
{
    let kept = x.kept;
    let reference = bytes_of(
        store,
        Part {
            from: REFERENCE,
            to: REFERENCE + kept.reference,
        },
    );
    let mut room = [0u32; 384];
    let stretch = read_stretch(piece, kept.state, reference, &mut room);
    put_rows(&room, stretch.numbers, rows, x.numbers, kept.offset);
    let beyond = Progress {
        kept: Kept {
            state: stretch.state,
            offset: kept.offset + stretch.at,
            body: 0,
            released: false,
            count: counted(kept.count, stretch.numbers / 3),
            answer: Final::Awaited,
            ..kept
        },
        at: x.at + stretch.at,
        numbers: x.numbers + stretch.numbers,
        ended: false,
    };
    match stretch.halt {
        None => beyond,
        Some(refusal) => named(
            beyond,
            Refusal {
                position: kept.offset + refusal.position,
                ..refusal
            },
        ),
    }
}
