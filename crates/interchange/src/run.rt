//! The segments of a message that only move its place on. Most segments are such, so that here only the place, the count, the
//! offset and the rows change; whatever else comes is left to the step.

ghost use Rattle.std.specs.Prelude.{◌≡◌, true, ◌≤◌, ◌<◌, length};
ghost use Rattle.placing.specs.Table.{rows};
ghost use Rattle.placing.specs.Tables.{table_of};
ghost use Rattle.hints.specs.Hints.{hints_of};
ghost use Rattle.steps.specs.State.{moved_state};
ghost use Rattle.interchange.specs.Room.{room_size};
ghost use Rattle.interchange.specs.Passes.{Passed};
ghost use Rattle.interchange.specs.Runs.{period_row, counted_of, placed_row};

use crate::led::{PeriodRow, lead_on};
use crate::packed::pack;
use crate::rows::put_row;
use crate::standing::Standing;
use placing::{GROUP, Place, TAG};
use steps::state::{Phase, Row, State};

/// The numbers of a room: 128 rows, three numbers each.
pub(crate) const ROOM: usize = 384;

/// A room with so many numbers has no place for a row more.
pub(crate) const FULL: usize = 382;

/// Where some segments of a message led.
#[derive(Clone, Copy)]
pub(crate) struct Ran {
    pub place: Place,
    pub segments: usize,
    pub at: usize,
    pub numbers: usize,
}

impl Ran {
    /// The state to which the segments led from another.
    pub(crate) fn led(self, from: State) -> State
        ensures { result ≡ moved_state from self.place self.segments }
    {
        let place = self.place;
        from.moved(place, self.segments)
    }
}

/// No segment is passed.
pub(crate) fn stay(from: Standing) -> Ran
    ensures { (result.place ≡ from.state.place) × (result.segments ≡ from.state.segments) × (result.at ≡ from.at) × (result.numbers ≡ from.numbers) }
{
    let st = from.state;
    let place = st.place;
    Ran {
        place,
        segments: st.segments,
        at: from.at,
        numbers: from.numbers,
    }
}

/// So many segments more, up to 65,535, which no interchange reaches.
pub fn counted(segments: usize, more: usize) -> usize
    ensures { result ≡ counted_of segments more }
{
    if 65535 <= segments {
        return segments;
    }
    if 65535 - segments < more {
        return 65535;
    }
    segments + more
}

// Whether an offset is one of an input that has eight bytes.
fn is_within(s: &[u8], at: usize) -> bool
    ensures { result ≡ true → (8 ≤ length s.now) × (at ≤ length s.now) }
{
    8 <= s.len() && at <= s.len()
}

// The row of a segment that is placed.
fn placed(table: &[[u32; 8]], to: usize, at: usize) -> Row
    requires { to < rows table.now }
    ensures { result ≡ placed_row table.now to at }
{
    Row {
        offset: at,
        group: table[to][GROUP],
        tag: table[to][TAG],
    }
}

// The segments from an offset on, while each only moves the place on, a hint tells of it and the room lasts.
pub(crate) fn run(
    s: &[u8],
    from: Standing,
    table: &[[u32; 8]],
    hints: &[[u16; 16]],
    room: &mut [u32],
    period: PeriodRow,
) -> Ran
    requires { (from.state.phase ≡ Phase.Inside) × (table.now ≡ table_of from.state.message) × (hints.now ≡ hints_of from.state.message) × (period.row ≡ period_row from.state.message) × (length s.now ≤ 60000) × (length room.old ≡ room_size) × (from.numbers ≤ room_size) × (period.wish ≡ from.state.wish) }
    ensures { Passed s.now from.state from.at from.numbers room.old (moved_state from.state result.place result.segments) result.at result.numbers room.new }
{
    let st = from.state;
    let reached = st.place;
    if !is_within(s, from.at) {
        return stay(from);
    }
    let Some(start) = pack(reached, table) else {
        return stay(from);
    };
    let last = s.len() - 8;
    let first = from.numbers;
    let mut place = start;
    let mut at = from.at;
    let mut numbers = first;
    while numbers < FULL {
        if last < at + 4 {
            break;
        }
        let Some(led) = lead_on(s, at, table, hints, place, period) else {
            break;
        };
        let next = led.place;
        put_row(room, numbers, at as u32, placed(table, next.row, at));
        place = next;
        at = led.end + 1;
        numbers += 3;
    }
    Ran {
        place: place.unpack(),
        segments: counted(st.segments, (numbers - first) / 3),
        at,
        numbers,
    }
}
