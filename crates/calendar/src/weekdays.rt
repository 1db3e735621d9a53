//! The calendar written with weekdays, where it has that form.

ghost use Rattle.std.specs.Prelude.{◌≡◌, ◌+◌, ◌≤◌, ◌%◌};
ghost use Rattle.laws.specs.Choice.{pick};
ghost use Rattle.laws.specs.Put.{put_at};
ghost use Rattle.calendar.specs.Days.{has_bit, day};
ghost use Rattle.calendar.specs.Written.{written_answer, text_answer, all_on, digits_from, named_text, weekday_answer, weekday_bytes};
ghost use Rattle.calendar.specs.Week.{mark, week_of};
ghost use Rattle.calendar.specs.WeekLaws.{on_here};

use crate::WriteError;
use crate::days::{has_bit, test_day, with_bit};
use crate::spans::check;
use crate::start::put_start;
use dates::Date;

// The week's byte with the weekday of day k, where that day is selected.
fn marked(days: &[u8], k: usize, week: u8, weekday: usize) -> u8
    ensures { result ≡ mark (day days.now k) week (weekday % 8) }
{
    if test_day(days, k) {
        with_bit(week, weekday)
    } else {
        week
    }
}

// The weekdays of those of the first n days that are selected, as the bits of a byte.
fn weekdays_of(days: &[u8], first: usize, n: usize) -> u8
    requires { first + n ≤ 65536 }
    ensures { result ≡ week_of days.now first n }
{
    let mut week = 0u8;
    for k in 0..n {
        week = marked(days, k, week, dates::weekday(first + k) as usize);
    }
    week
}

// Whether day k is selected or its weekday is not one of the week's.
fn kept(days: &[u8], first: usize, k: usize, week: u8) -> bool
    requires { first + k ≤ 65536 }
    ensures { result ≡ on_here (has_bit week) days.now first k }
{
    !has_bit(week, dates::weekday(first + k) as usize) || test_day(days, k)
}

// Whether all of the first n days are selected that fall on one of the week's days.
fn all_on(days: &[u8], first: usize, n: usize, week: u8) -> bool
    requires { first + n ≤ 65536 }
    ensures { result ≡ all_on (has_bit week) days.now first 0 n }
{
    (0..n).all(|k| kept(days, first, k, week))
}

// How many places a weekday takes.
fn one_if(week: u8, weekday: usize) -> usize
    ensures { result ≡ pick (has_bit week (weekday % 8)) 1 0 }
{
    if has_bit(week, weekday) { 1 } else { 0 }
}

// The week's days as digits, rising, at the front of lent bytes; a digit stands only if the next place moves past it.
fn weekday_digits(week: u8, bytes: &mut [u8; 7]) -> &[u8]
    ensures { result.now ≡ digits_from (has_bit week) 1 7 }
{
    let mut count = 0;
    for weekday in 1..8 {
        bytes[count] = b'0' + weekday as u8;
        count += one_if(week, weekday);
    }
    &bytes[..count]
}

// The segment with these weekdays.
fn write_named(
    first: Date,
    last: Date,
    weekdays: &[u8],
    out: &mut [u8],
) -> Result<usize, WriteError>
    ensures { (written_answer result ≡ text_answer (named_text first last weekdays.now) out.old) × (out.new ≡ put_at out.old 0 (named_text first last weekdays.now)) }
{
    let n = weekdays.len();
    if out.len() < 31 || out.len() - 31 < n {
        return Err(WriteError::NoRoom);
    }
    put_start(first, last, out);
    raw_bytes::put_bytes(out, 29, b"+");
    raw_bytes::put_bytes(out, 30, weekdays);
    raw_bytes::put_bytes(out, 30 + n, b"'");
    Ok(31 + n)
}

/// The calendar as a POP with weekdays, where it has that form, and how many bytes it has.
pub fn write_weekdays(
    days: &[u8],
    first: Date,
    last: Date,
    out: &mut [u8],
) -> Result<usize, WriteError>
    ensures { (written_answer result ≡ weekday_answer days.now first last out.old) × (out.new ≡ weekday_bytes days.now first last out.old) }
{
    let Some(span) = check(days, first, last) else {
        return Err(WriteError::BadCalendar);
    };
    let week = weekdays_of(days, span.first, span.count);
    if week == 0 || !all_on(days, span.first, span.count, week) {
        return Err(WriteError::NoWeekdayForm);
    }
    let mut bytes = [0u8; 7];
    write_named(first, last, weekday_digits(week, &mut bytes), out)
}
