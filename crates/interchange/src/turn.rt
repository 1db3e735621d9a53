//! One turn of the reading: the segment at an offset, and its step.

ghost use Rattle.std.specs.Prelude.{◌≡◌, drop};
ghost use Rattle.syntax.specs.Segment.{segment_at};
ghost use Rattle.parts.specs.Places.{bytes_of};
ghost use Rattle.steps.specs.Step.{step_answer};
ghost use Rattle.interchange.specs.Reader.{turn_step, turn_with, turn_at};

use answers::Refusal;
use parts::{Part, bytes_of};
use steps::state::{Row, State, Step};
use steps::step::step_segment;
use syntax::segment::read_segment;

/// What a turn comes to: the next state, the segment's row, and the offset of the next segment.
#[derive(Clone, Copy)]
pub struct Turn {
    pub state: State,
    pub row: Row,
    pub then: usize,
}

// A part of what starts at an offset.
fn lent(s: &[u8], at: usize, part: Part) -> &[u8]
    ensures { result.now ≡ bytes_of (drop at s.now) part }
{
    if s.len() < at {
        return &s[0..0];
    }
    bytes_of(&s[at..], part)
}

// What the step of a segment comes to; the next segment stands at an offset.
fn turned(step: Result<Step, Refusal>, then: usize) -> Result<Turn, Refusal>
    ensures { result ≡ turn_step then (step_answer step) }
{
    let Step { state, row } = step?;
    Ok(Turn { state, row, then })
}

/// The step of the segment at an offset, or what is wrong with it, for a reader whose earlier bytes are gone: the references of its UIB and of its
/// message's UIH are lent.
pub fn turn_with(
    s: &[u8],
    st: State,
    at: usize,
    dialogue: &[u8],
    reference: &[u8],
    tables: &[[u32; 8]],
) -> Result<Turn, Refusal>
    ensures { result ≡ turn_with tables.now s.now dialogue.now reference.now st at (segment_at s.now at) }
{
    match read_segment(s, at) {
        Ok(end) => {
            let step = step_segment(st, at, &s[at..end], dialogue, reference, tables);
            turned(step, end + 1)
        }
        Err(error) => Err(error.refusal(at)),
    }
}

/// The step of the segment at an offset, or what is wrong with it.
pub(crate) fn take_turn(
    s: &[u8],
    st: State,
    at: usize,
    tables: &[[u32; 8]],
) -> Result<Turn, Refusal>
    ensures { result ≡ turn_at tables.now s.now st at }
{
    let dialogue = st.dialogue;
    let reference = st.reference;
    let opening = lent(s, st.opened_at, dialogue);
    let heading = lent(s, st.headed_at, reference);
    turn_with(s, st, at, opening, heading, tables)
}
