//! What C calls: numbers and slices only (include/drumcallisto.h). A slice is a pointer and, after it, a length.

#![tactic(auto)]

pub mod arriving;
pub mod calendars;
pub mod reading;
pub mod registers;

ghost use Rattle.std.specs.Prelude.{◌≡◌, length};
ghost use Rattle.interchange.specs.Reader.{reading_of, read_answer, outcome_answer, rows_after};
ghost use Rattle.answers.specs.Answers as answer;
ghost use Rattle.answers.specs.Reasons.{number_of};
ghost use Rattle.desk.specs.Desk.{reply_of};

use answers::{Reason, Refusal};
use interchange::reader::read;

/// What a call comes to. Number 0 is done, with a value; any other number is a refusal, with its position, beside 10 the part of the
/// POP that is wrong, and no value but the rows that a parcel brought before it.
#[repr(C)]
#[derive(Clone, Copy)]
pub struct Reply {
    pub number: u8,
    pub position: usize,
    pub part: u8,
    pub value: usize,
}

// The reply of a call that is done.
fn done(value: usize) -> Reply
    ensures { result ≡ reply_of (answer.done value) }
{
    Reply {
        number: 0,
        position: 0,
        part: 0,
        value,
    }
}

// The reply of a refusal.
fn replied(refusal: Refusal) -> Reply
    ensures { result ≡ reply_of (answer.refused refusal) }
{
    Reply {
        number: refusal.number,
        position: refusal.position,
        part: refusal.part,
        value: 0,
    }
}

// The reply of a refusal other than 10.
fn refused(reason: Reason, position: usize) -> Reply
    ensures { result ≡ reply_of (answer.refused (answer.naming (number_of reason) position)) }
{
    replied(reason.at(position))
}

fn told(reading: Result<usize, Refusal>) -> Reply
    ensures { result ≡ reply_of (read_answer reading) }
{
    match reading {
        Ok(n) => done(n),
        Err(refusal) => replied(refusal),
    }
}

/// Reads an interchange and writes its rows, three numbers each (offset, group and tag), to the front of a lent buffer. The wish is whether the
/// caller asks for the old reading of a POP with neither form. A refusal leaves the buffer as it was, and what stands past the rows stays too.
#[unsafe(no_mangle)]
pub extern "C" fn drumcallisto_read(interchange: &[u8], wish: bool, rows: &mut [u32]) -> Reply
    ensures told { result ≡ reply_of (outcome_answer (reading_of wish interchange.now) (length rows.old)) }
    ensures left { rows.new ≡ rows_after (reading_of wish interchange.now) rows.old }
{
    told(read(interchange, wish, rows))
}
