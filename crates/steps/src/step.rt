//! One segment's step. The state goes in and comes back by value; the tables and the two references are lent.

ghost use Rattle.std.specs.Prelude.{◌≡◌};
ghost use Rattle.answers.specs.Answers as answers;
ghost use Rattle.answers.specs.Reasons.{number_of};
ghost use Rattle.envelope.specs.Envelope.{uih_of};
ghost use Rattle.period.specs.Period.{period_of};
ghost use Rattle.placing.specs.Tables.{table_in};
ghost use Rattle.steps.specs.Step.{step_answer, row_of, opening, headed, closing, between_messages, trailing, judged, placed, inside_message, segment_step};

use crate::state::{Phase, Row, State, Step, one_more};
use answers::{Reason, Refusal};
use envelope::{HeadError, check_uit, check_uiz, read_uib, read_uih};
use messages::{UIB, UIH, UIT, UIZ, is_12b, is_period};
use parts::Part;
use period::read_period;
use placing::Place;
use segment_tables::{table_of, tsdupd_12b};
use syntax::segment::tag_at;

fn refused(reason: Reason, position: usize) -> Result<Step, Refusal>
    ensures { step_answer result ≡ answers.refused (answers.naming (number_of reason) position) }
{
    Err(reason.at(position))
}

fn row(at: usize, segment: &[u8], group: u32) -> Row
    ensures { result ≡ row_of at segment.now group }
{
    Row {
        offset: at,
        group,
        tag: tag_at(segment, 0),
    }
}

// The UIB is to come.
fn open_dialogue(st: State, at: usize, segment: &[u8]) -> Result<Step, Refusal>
    ensures { step_answer result ≡ opening st at segment.now }
{
    if tag_at(segment, 0) != UIB {
        return refused(Reason::WrongEnvelope, at);
    }
    match read_uib(segment) {
        Some(dialogue) => Ok(Step {
            state: st.opened(at, dialogue),
            row: row(at, segment, 0),
        }),
        None => refused(Reason::WrongEnvelope, at),
    }
}

// A UIH between messages.
fn head_message(st: State, at: usize, segment: &[u8]) -> Result<Step, Refusal>
    ensures { step_answer result ≡ headed st at segment.now (uih_of segment.now) }
{
    match read_uih(segment) {
        Ok(head) => Ok(Step {
            state: st.headed(at, head.message, head.reference),
            row: row(at, segment, 0),
        }),
        Err(HeadError::Missing) => refused(Reason::WrongEnvelope, at),
        Err(HeadError::Unknown) => refused(Reason::UnknownType, at),
    }
}

// A UIZ between messages.
fn close_dialogue(st: State, at: usize, segment: &[u8], dialogue: &[u8]) -> Result<Step, Refusal>
    ensures { step_answer result ≡ closing st at segment.now dialogue.now }
{
    if st.messages == 0 {
        return refused(Reason::WrongEnvelope, at);
    }
    if check_uiz(segment, dialogue, st.messages) {
        return Ok(Step {
            state: st.closed(),
            row: row(at, segment, 0),
        });
    }
    refused(Reason::WrongEnvelope, at)
}

// Between messages.
fn next_message(st: State, at: usize, segment: &[u8], dialogue: &[u8]) -> Result<Step, Refusal>
    ensures { step_answer result ≡ between_messages st at segment.now dialogue.now }
{
    let tag = tag_at(segment, 0);
    if tag == UIH {
        return head_message(st, at, segment);
    }
    if tag == UIZ {
        return close_dialogue(st, at, segment, dialogue);
    }
    refused(Reason::WrongEnvelope, at)
}

// The message's UIT, placed.
fn end_message(
    st: State,
    at: usize,
    segment: &[u8],
    reference: &[u8],
    place: Place,
    group: u32,
) -> Result<Step, Refusal>
    ensures { step_answer result ≡ trailing st at segment.now reference.now place group }
{
    if check_uit(segment, reference, one_more(st.segments)) {
        return Ok(Step {
            state: st.ended(place),
            row: row(at, segment, group),
        });
    }
    refused(Reason::WrongEnvelope, at)
}

// A period, placed.
fn judge_period(
    st: State,
    at: usize,
    segment: &[u8],
    place: Place,
    group: u32,
) -> Result<Step, Refusal>
    ensures { step_answer result ≡ judged st at segment.now place group (period_of st.wish segment.now) }
{
    let whole = Part {
        from: 0,
        to: segment.len(),
    };
    match read_period(segment, whole, st.wish) {
        Ok(_) => Ok(Step {
            state: st.onward(place),
            row: row(at, segment, group),
        }),
        Err(fault) => Err(Refusal {
            part: fault.number(),
            ..Reason::WrongPeriod.at(at)
        }),
    }
}

// A segment of the message, placed.
fn take_segment(
    st: State,
    at: usize,
    segment: &[u8],
    reference: &[u8],
    group: u32,
    place: Place,
) -> Result<Step, Refusal>
    ensures { step_answer result ≡ placed st at segment.now reference.now group place }
{
    let tag = tag_at(segment, 0);
    if tag == UIT {
        return end_message(st, at, segment, reference, place, group);
    }
    let message = st.message;
    if is_period(message, tag, group) {
        return judge_period(st, at, segment, place, group);
    }
    Ok(Step {
        state: st.onward(place),
        row: row(at, segment, group),
    })
}

// In a message, by its table.
fn next_segment(
    st: State,
    at: usize,
    segment: &[u8],
    reference: &[u8],
    table: &[[u32; 8]],
) -> Result<Step, Refusal>
    ensures { step_answer result ≡ inside_message table.now st at segment.now reference.now }
{
    let place = st.place;
    match place.step(table, tag_at(segment, 0)) {
        Some(p) => take_segment(st, at, segment, reference, p.group(table), p),
        None => refused(Reason::OutOfPlace, at),
    }
}

// Inside a message, by the table of its type; that of D.12B is not among the rows that are lent.
fn in_message(
    st: State,
    at: usize,
    segment: &[u8],
    reference: &[u8],
    tables: &[[u32; 8]],
) -> Result<Step, Refusal>
    ensures { step_answer result ≡ inside_message (table_in tables.now st.message) st at segment.now reference.now }
{
    let message = st.message;
    if is_12b(message) {
        let own = tsdupd_12b();
        return next_segment(st, at, segment, reference, &own);
    }
    next_segment(st, at, segment, reference, table_of(tables, message))
}

/// The step of a segment, without its terminator, that starts at an offset of the whole. The dialogue reference and the
/// message's reference are lent as they were written; a reader whose earlier bytes are gone lends its own store.
pub fn step_segment(
    st: State,
    at: usize,
    segment: &[u8],
    dialogue: &[u8],
    reference: &[u8],
    tables: &[[u32; 8]],
) -> Result<Step, Refusal>
    ensures { step_answer result ≡ segment_step tables.now st at segment.now dialogue.now reference.now }
{
    let phase = st.phase;
    match phase {
        Phase::Opening => open_dialogue(st, at, segment),
        Phase::Between => next_message(st, at, segment, dialogue),
        Phase::Inside => in_message(st, at, segment, reference, tables),
        Phase::Closed => refused(Reason::WrongEnvelope, at),
    }
}
