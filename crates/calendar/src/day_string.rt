//! The calendar written with a day string.

ghost use Rattle.std.specs.Prelude.{◌≡◌};
ghost use Rattle.laws.specs.Put.{put_at};
ghost use Rattle.calendar.specs.Written.{written_answer, day_character, day_characters, short_count, character_count, day_string_text, text_answer, day_string_answer, day_string_bytes};

use crate::WriteError;
use crate::days::test_day;
use crate::spans::check;
use crate::start::put_start;
use dates::Date;

// How many characters tell that no day runs: a single `0`.
const NO_DAY: usize = 1;

// The character of day k.
fn day_character(days: &[u8], k: usize) -> u8
    ensures { result ≡ day_character days.now k }
{
    if test_day(days, k) { b'1' } else { b'0' }
}

/// The first n days as characters, put at an offset where there is room for all of them.
pub fn put_days(days: &[u8], n: usize, out: &mut [u8], at: usize)
    ensures { out.new ≡ put_at out.old at (day_characters days.now 0 n) }
{
    if out.len() < n || out.len() - n < at {
        return;
    }
    for k in 0..n {
        out[at + k] = day_character(days, k);
    }
}

// How many characters the short form has of n days: up to the last running day, or a single one where there is none.
fn short_count(days: &[u8], n: usize) -> usize
    ensures { result ≡ short_count days.now n }
{
    for k in (0..n).rev() {
        if test_day(days, k) {
            return k + 1;
        }
    }
    NO_DAY
}

// How many characters are written for n days, in the short form where it is asked for.
fn character_count(days: &[u8], n: usize, short: bool) -> usize
    ensures { result ≡ character_count short days.now n }
{
    if short { short_count(days, n) } else { n }
}

// The segment with the first n characters of the day string.
fn write_characters(
    days: &[u8],
    first: Date,
    last: Date,
    n: usize,
    out: &mut [u8],
) -> Result<usize, WriteError>
    ensures { (written_answer result ≡ text_answer (day_string_text days.now first last n) out.old) × (out.new ≡ put_at out.old 0 (day_string_text days.now first last n)) }
{
    if out.len() < 32 || out.len() - 32 < n {
        return Err(WriteError::NoRoom);
    }
    put_start(first, last, out);
    raw_bytes::put_bytes(out, 29, b"::");
    put_days(days, n, out, 31);
    raw_bytes::put_bytes(out, 31 + n, b"'");
    Ok(32 + n)
}

/// The calendar as a POP with a day string, and how many bytes it has: one character for each day or, where the short form is asked for, up to the last running day.
pub fn write_day_string(
    days: &[u8],
    first: Date,
    last: Date,
    short: bool,
    out: &mut [u8],
) -> Result<usize, WriteError>
    ensures { (written_answer result ≡ day_string_answer short days.now first last out.old) × (out.new ≡ day_string_bytes short days.now first last out.old) }
{
    let Some(span) = check(days, first, last) else {
        return Err(WriteError::BadCalendar);
    };
    let n = character_count(days, span.count, short);
    write_characters(days, first, last, n, out)
}
