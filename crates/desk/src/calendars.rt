//! The written forms of a calendar, for C.

ghost use Rattle.std.specs.Prelude.{◌≡◌};
ghost use Rattle.calendar.specs.Written.{written_answer, day_string_answer, day_string_bytes, weekday_answer, weekday_bytes};
ghost use Rattle.desk.specs.Desk.{reply_of, day_date};

use crate::{Reply, done, refused};
use answers::Reason;
use calendar::WriteError;
use dates::Date;

/// A date as C gives it: any three numbers.
#[repr(C)]
#[derive(Clone, Copy)]
pub struct Day {
    pub year: u32,
    pub month: u32,
    pub day: u32,
}

/// The date that three numbers make, or one that is none.
pub fn date_of(day: Day) -> Date
    ensures { result ≡ day_date day }
{
    Date::new(day.year, day.month, day.day).unwrap_or(Date {
        year: 0,
        month: 0,
        day: 0,
    })
}

fn told(written: Result<usize, WriteError>) -> Reply
    ensures { result ≡ reply_of (written_answer written) }
{
    match written {
        Ok(n) => done(n),
        Err(WriteError::BadCalendar) => refused(Reason::BadCalendar, 0),
        Err(WriteError::NoWeekdayForm) => refused(Reason::NoWeekdayForm, 0),
        Err(WriteError::NoRoom) => refused(Reason::OutputTooShort, 0),
    }
}

/// The calendar as a POP with a day string, in the short form where it is asked for, to the front of a lent buffer.
#[unsafe(no_mangle)]
pub extern "C" fn drumcallisto_write_day_string(
    days: &[u8],
    first: Day,
    last: Day,
    short: bool,
    out: &mut [u8],
) -> Reply
    ensures told { result ≡ reply_of (day_string_answer short days.now (day_date first) (day_date last) out.old) }
    ensures left { out.new ≡ day_string_bytes short days.now (day_date first) (day_date last) out.old }
{
    told(calendar::write_day_string(days, date_of(first), date_of(last), short, out))
}

/// The calendar as a POP with weekdays, where it has that form, to the front of a lent buffer.
#[unsafe(no_mangle)]
pub extern "C" fn drumcallisto_write_weekdays(
    days: &[u8],
    first: Day,
    last: Day,
    out: &mut [u8],
) -> Reply
    ensures told { result ≡ reply_of (weekday_answer days.now (day_date first) (day_date last) out.old) }
    ensures left { out.new ≡ weekday_bytes days.now (day_date first) (day_date last) out.old }
{
    told(calendar::write_weekdays(days, date_of(first), date_of(last), out))
}
