//! Some rows of a reading, gathered in a room of the reader's own.

ghost use Rattle.std.specs.Prelude.{◌≡◌, ◌≤◌, length};
ghost use Rattle.answers.specs.Answers.{wrong_envelope};
ghost use Rattle.placing.specs.Tables as placing;
ghost use Rattle.hints.specs.Hints as hinting;
ghost use Rattle.steps.specs.State.{moved_state};
ghost use Rattle.interchange.specs.Reader.{is_closed};
ghost use Rattle.interchange.specs.Room.{room_size};
ghost use Rattle.interchange.specs.Passes.{Passed};
ghost use Rattle.interchange.specs.Chunks.{gathered_by, ended_at, Chunk};

use crate::led::PeriodRow;
use crate::rows::put_row;
use crate::run::{FULL, Ran, run, stay};
use crate::standing::{Standing, is_closed, is_inside};
use crate::turn::take_turn;
use answers::{Reason, Refusal};
use hints::tables::hints_of;
use messages::MessageType;
use segment_tables::{table_of, tsdupd_12b};
use steps::state::{Phase, State};

// The row of the period that is read, in the table of SKDUPD, and a row that no table has.
const PERIOD: usize = 22;

const NO_PERIOD: usize = 104;

/// What is gathered of a reading without a fault.
#[derive(Clone, Copy)]
pub(crate) enum Gathered {
    /// All its rows: how many numbers they are.
    Numbers(usize),
    /// The room is full: where the rest is to be read from, and how many numbers are gathered.
    Full(Standing),
}

// The input is at its end.
fn ended(phase: Phase, numbers: usize, size: usize) -> Result<Gathered, Refusal>
    ensures { result ≡ ended_at (is_closed phase) numbers size }
{
    if is_closed(phase) {
        return Ok(Gathered::Numbers(numbers));
    }
    Err(Reason::WrongEnvelope.at(size))
}

/// Where a message stands, its segments that only move its place on; elsewhere none.
pub(crate) fn run_on(
    s: &[u8],
    from: Standing,
    tables: &[[u32; 8]],
    hints: &[[u16; 16]],
    room: &mut [u32],
) -> Ran
    requires { (tables.now ≡ placing.tables) × (hints.now ≡ hinting.hints) × (length s.now ≤ 60000) × (length room.old ≡ room_size) × (from.numbers ≤ room_size) }
    ensures { Passed s.now from.state from.at from.numbers room.old (moved_state from.state result.place result.segments) result.at result.numbers room.new }
{
    let st = from.state;
    let phase = st.phase;
    if !is_inside(phase) {
        return stay(from);
    }
    let message = st.message;
    let read = PeriodRow {
        row: PERIOD,
        wish: st.wish,
    };
    let none = PeriodRow {
        row: NO_PERIOD,
        wish: st.wish,
    };
    // A call for each type: called from one place only, `run` would be made a part of its caller and lose its registers.
    match message {
        MessageType::Skdupd => {
            let table = table_of(tables, MessageType::Skdupd);
            let hinted = hints_of(hints, MessageType::Skdupd);
            run(s, from, table, hinted, room, read)
        }
        MessageType::Tsdupd => {
            let table = table_of(tables, MessageType::Tsdupd);
            let hinted = hints_of(hints, MessageType::Tsdupd);
            run(s, from, table, hinted, room, none)
        }
        MessageType::Tsdupd12B => {
            let table = tsdupd_12b();
            let hinted = hints_of(hints, MessageType::Tsdupd12B);
            run(s, from, &table, hinted, room, none)
        }
    }
}

// A segment past the UIZ.
fn past_end(at: usize) -> Result<Gathered, Refusal>
    ensures { result ≡ gathered_by (wrong_envelope at) }
{
    Err(Reason::WrongEnvelope.at(at))
}

/// The segments one after the other, their rows into a room of the reader's own, until it is full.
pub(crate) fn gather(
    s: &[u8],
    start: State,
    from: usize,
    tables: &[[u32; 8]],
    hints: &[[u16; 16]],
    room: &mut [u32],
) -> Result<Gathered, Refusal>
    requires { (tables.now ≡ placing.tables) × (hints.now ≡ hinting.hints) × (length s.now ≤ 60000) × (length room.old ≡ room_size) × (from ≤ length s.now) }
    ensures { Chunk s.now start from result room.new × (length room.new ≡ room_size) }
{
    let before = Standing {
        state: start,
        at: from,
        numbers: 0,
    };
    let begun = run_on(s, before, tables, hints, room);
    let mut st = begun.led(start);
    let mut at = begun.at;
    let mut numbers = begun.numbers;
    while numbers < FULL {
        let phase = st.phase;
        if s.len() <= at {
            return ended(phase, numbers, s.len());
        }
        if is_closed(phase) {
            return past_end(at);
        }
        let turn = take_turn(s, st, at, tables)?;
        put_row(room, numbers, at as u32, turn.row);
        let after = Standing {
            state: turn.state,
            at: turn.then,
            numbers: numbers + 3,
        };
        let ran = run_on(s, after, tables, hints, room);
        st = ran.led(turn.state);
        at = ran.at;
        numbers = ran.numbers;
    }
    Ok(Gathered::Full(Standing {
        state: st,
        at,
        numbers,
    }))
}
