//! Reading an interchange in parcels, each lent and then gone: `begin`, a `take` for each parcel, `finish`. Between two calls the reading is kept in a lent store.

#![tactic(auto)]

mod advance;
mod passing;
mod pieces;
mod rows;

ghost use Rattle.std.specs.Prelude.{◌≡◌, false, ◌+◌, ◌*◌, ◌≤◌, ◌<◌, leb, length};
ghost use Rattle.syntax.specs.Segment.{permitted_run, body_answer};
ghost use Rattle.answers.specs.Answers as answer;
ghost use Rattle.interchange.specs.Reader.{read_answer};
ghost use Rattle.arrival.specs.Arrived.{given, awaited_end, arrived_on};
ghost use Rattle.parcel_store.specs.declared.Final.TheVariants.{Awaited};
ghost use Rattle.parcel_store.specs.Store.{part_size, store_size, stand_of, final_by};
ghost use Rattle.parcels.specs.Onward.{Sized};
ghost use Rattle.parcels.specs.Calls.{telling, parcel_told, verdict_by, take_told, take_store, take_rows, finish_answer, finish_store, begin_told, begin_store};
ghost use Rattle.parcels.specs.Whole.{is_awaited};

use crate::advance::{advance, is_awaited};
use crate::passing::answered;
use answers::{Reason, Refusal};
use interchange::is_closed;
use parcel_store::{BODY, Final, Kept, STORE, load, save};
use parts::{Part, bytes_of};
use raw_bytes::put_bytes;
use steps::state::State;
use syntax::bytes::permitted;

/// What is wrong with a parcel, and how many rows were written before that.
#[derive(Clone, Copy, PartialEq, Eq, Debug)]
pub struct Fault {
    pub rows: usize,
    /// 3, 4, 6 to 10 or 21, which is final, or 17.
    pub refusal: Refusal,
}

// There is no room, of the store or for the rows.
fn no_room() -> Result<usize, Fault>
    ensures { parcel_told result ≡ telling 0 answer.output_too_short }
{
    Err(Fault {
        rows: 0,
        refusal: Reason::OutputTooShort.at(0),
    })
}

/// The store holds a reading before its first byte; the wish is whether the caller asks for the old reading of a POP with neither form in what follows.
/// 17 for a store of another length.
pub fn begin(store: &mut [u8], wish: bool) -> Result<usize, Fault>
    ensures told { parcel_told result ≡ begin_told store.old }
    ensures left { store.new ≡ begin_store wish store.old }
{
    if store.len() != STORE {
        return no_room();
    }
    let kept = Kept {
        state: State::opening(wish),
        offset: 0,
        body: 0,
        released: false,
        dialogue: 0,
        reference: 0,
        count: 0,
        answer: Final::Awaited,
    };
    save(store, kept);
    Ok(0)
}

// Whether a parcel's rows fit into so many numbers. A row has four bytes at least, so that most parcels need not be read for it.
fn has_room(store: &[u8], kept: Kept, parcel: &[u8], room: usize) -> bool
    requires { (length store.now ≡ store_size) × Sized kept × (kept.answer ≡ Awaited) }
    ensures { result ≡ leb (3 * length (arrived_on (stand_of kept store.now) parcel.now).rows) room }
{
    if parcel.len() <= 60000 && (kept.body + parcel.len()) / 4 * 3 <= room {
        return true;
    }
    let mut copy = [0u8; STORE];
    put_bytes(&mut copy, 0, store);
    let mut none = [0u32; 1];
    let x = advance(&mut copy, kept, parcel, &mut none);
    x.numbers <= room
}

// What the final answer says of a parcel that brought so many rows.
fn told(rows: usize, answer: Final, count: usize) -> Result<usize, Fault>
    ensures { parcel_told result ≡ telling rows (verdict_by (final_by answer count)) }
{
    match answer {
        Final::Awaited => Ok(rows),
        Final::Accepted => Ok(rows),
        Final::Refused(refusal) => Err(Fault { rows, refusal }),
    }
}

/// Reads the next parcel and writes the rows of the segments that end in it to the front of a lent buffer, and tells how many; a fault is named after the rows before it. Where the
/// rows do not fit the parcel is not taken: 17, and the next call finds the reading as it was. A final answer is repeated, and nothing is written then.
pub fn take(store: &mut [u8], parcel: &[u8], rows: &mut [u32]) -> Result<usize, Fault>
    ensures told { parcel_told result ≡ take_told store.old parcel.now (length rows.old) }
    ensures left { store.new ≡ take_store store.old parcel.now (length rows.old) }
    ensures out { rows.new ≡ take_rows store.old parcel.now rows.old }
{
    if store.len() != STORE {
        return no_room();
    }
    let kept = load(store);
    let answer = kept.answer;
    if !is_awaited(answer) {
        return told(0, answer, kept.count);
    }
    if !has_room(store, kept, parcel, rows.len()) {
        return no_room();
    }
    let x = advance(store, kept, parcel, rows);
    let after = x.kept;
    save(store, after);
    let last = after.answer;
    told(x.numbers / 3, last, after.count)
}

// How many permitted bytes a text begins with.
fn permitted_run(text: &[u8]) -> usize
    ensures { result ≡ permitted_run text.now }
{
    let mut i = 0;
    while i < text.len() {
        if !permitted(text[i]) {
            return i;
        }
        i += 1;
    }
    i
}

// The input is over inside a segment: 4, then 5.
fn cut_answer(body: &[u8], offset: usize) -> Refusal
    requires { (length body.now ≤ part_size) × (offset < 65536) }
    ensures { answer.refused result ≡ body_answer (offset + length body.now) offset body.now }
{
    let run = permitted_run(body);
    if run < body.len() {
        return Reason::ByteNotPermitted.at(offset + run);
    }
    Reason::InputEnds.at(offset)
}

// What the end of the input says.
fn end_answer(store: &[u8], kept: Kept) -> Final
    requires { (length store.now ≡ store_size) × Sized kept }
    ensures { final_by result kept.count ≡ given (awaited_end (stand_of kept store.now)) }
{
    if kept.offset + kept.body == 0 {
        return Final::Refused(Reason::BadSize.at(0));
    }
    if 0 < kept.body {
        let body = bytes_of(
            store,
            Part {
                from: BODY,
                to: BODY + kept.body,
            },
        );
        return Final::Refused(cut_answer(body, kept.offset));
    }
    if is_closed(kept.state.phase) {
        return Final::Accepted;
    }
    Final::Refused(Reason::WrongEnvelope.at(kept.offset))
}

// The final answer of a reading.
fn final_reading(answer: Final, count: usize) -> Result<usize, Refusal>
    requires { is_awaited answer ≡ false }
    ensures { given (read_answer result) ≡ final_by answer count }
{
    match answer {
        Final::Awaited => Ok(count),
        Final::Accepted => Ok(count),
        Final::Refused(refusal) => Err(refusal),
    }
}

/// The input is over: how many rows there were, or what is wrong. 17 for a store of another length. Later calls answer the same.
pub fn finish(store: &mut [u8]) -> Result<usize, Refusal>
    ensures told { read_answer result ≡ finish_answer store.old }
    ensures left { store.new ≡ finish_store store.old }
{
    if store.len() != STORE {
        return Err(Reason::OutputTooShort.at(0));
    }
    let kept = load(store);
    let answer = kept.answer;
    if !is_awaited(answer) {
        return final_reading(answer, kept.count);
    }
    let last = end_answer(store, kept);
    save(store, answered(kept, last));
    final_reading(last, kept.count)
}
