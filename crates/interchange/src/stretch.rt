//! The whole segments at the front of some bytes that are read in one phase, for a reader whose earlier bytes are gone.

ghost use Rattle.std.specs.Prelude.{◌≡◌, ◌*◌, ◌≤◌, length};
ghost use Rattle.laws.specs.Choice.{pick};
ghost use Rattle.laws.specs.Put.{put_at};
ghost use Rattle.answers.specs.Answers.{refused};
ghost use Rattle.placing.specs.Tables as placing;
ghost use Rattle.hints.specs.Hints as hinting;
ghost use Rattle.interchange.specs.Reader.{accepted, numbers};
ghost use Rattle.interchange.specs.Room.{room_size, room_rows};
ghost use Rattle.interchange.specs.Stretch.{is_ended, stretch_on, stretch_of, halt_verdict};
ghost use Rattle.interchange.specs.Stretches.{Reached};

use crate::gather::run_on;
use crate::rows::put_row;
use crate::run::{FULL, ROOM};
use crate::standing::{Standing, is_same};
use crate::turn::{Turn, turn_with};
use answers::Refusal;
use cuts::find_terminator;
use hints::tables::hints;
use segment_tables::tables;
use steps::state::State;

/// What some segments come to. Offsets count from the front of the bytes.
#[derive(Clone, Copy)]
pub struct Stretch {
    /// The state after them.
    pub state: State,
    /// Where the next segment begins.
    pub at: usize,
    /// How many numbers their rows are.
    pub numbers: usize,
    /// The fault of the next segment, where it has one.
    pub halt: Option<Refusal>,
}

fn halted(state: State, at: usize, numbers: usize, halt: Option<Refusal>) -> Stretch
    ensures { (result.state ≡ state) × (result.at ≡ at) × (result.numbers ≡ numbers) × (result.halt ≡ halt) }
{
    Stretch {
        state,
        at,
        numbers,
        halt,
    }
}

// The fault of the segment at an offset, where a terminator stands behind it; a segment that is cut may still be sound.
fn halt_at(s: &[u8], at: usize, refusal: Refusal) -> Option<Refusal>
    requires { at ≤ length s.now }
    ensures { halt_verdict result ≡ pick (is_ended s.now at) (refused refusal) accepted }
{
    let rest = &s[at..];
    let ending = find_terminator(rest, false);
    if ending.at < rest.len() {
        return Some(refusal);
    }
    None
}

// The segments one after the other, until the phase changes, one is cut or has a fault, or the room is full.
fn stretch_on(
    s: &[u8],
    from: State,
    reference: &[u8],
    tables: &[[u32; 8]],
    hints: &[[u16; 16]],
    room: &mut [u32],
) -> Stretch
    requires { (tables.now ≡ placing.tables) × (hints.now ≡ hinting.hints) × (length s.now ≤ 60000) × (length room.old ≡ room_size) }
    ensures { Reached (stretch_on room_rows s.now reference.now from 0) room.old result.state result.at result.numbers (halt_verdict result.halt) room.new }
{
    let before = Standing {
        state: from,
        at: 0,
        numbers: 0,
    };
    let begun = run_on(s, before, tables, hints, room);
    let mut state = begun.led(from);
    let mut at = begun.at;
    let mut numbers = begun.numbers;
    while numbers < FULL {
        let phase = state.phase;
        match turn_with(s, state, at, reference, reference, tables) {
            Ok(turn) => {
                let next = turn.state;
                put_row(room, numbers, at as u32, turn.row);
                numbers += 3;
                if !is_same(phase, next.phase) {
                    return halted(next, turn.then, numbers, None);
                }
                let after = Standing {
                    state: next,
                    at: turn.then,
                    numbers,
                };
                let ran = run_on(s, after, tables, hints, room);
                state = ran.led(next);
                at = ran.at;
                numbers = ran.numbers;
            }
            Err(refusal) => {
                let halt = halt_at(s, at, refusal);
                return halted(state, at, numbers, halt);
            }
        }
    }
    halted(state, at, numbers, None)
}

/// The whole segments at the front of some bytes, read from a state on; the last may change the phase, and then no more are read. The reference lent is the dialogue's between
/// messages and the message's inside one. Their rows go to the front of a room of 384 numbers.
pub fn read_stretch(s: &[u8], from: State, reference: &[u8], room: &mut [u32]) -> Stretch
    ensures told { (result.state ≡ (stretch_of s.now reference.now from (length room.old)).state) × (result.at ≡ (stretch_of s.now reference.now from (length room.old)).at) × (result.numbers ≡ 3 * length (stretch_of s.now reference.now from (length room.old)).rows) × (halt_verdict result.halt ≡ (stretch_of s.now reference.now from (length room.old)).verdict) }
    ensures left { room.new ≡ put_at room.old 0 (numbers (stretch_of s.now reference.now from (length room.old)).rows) }
{
    if room.len() != ROOM {
        return halted(from, 0, 0, None);
    }
    if 60000 < s.len() {
        return halted(from, 0, 0, None);
    }
    let all = tables();
    let hinted = hints();
    stretch_on(s, from, reference, &all, &hinted, room)
}
