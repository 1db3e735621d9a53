//! The period that a calendar to write has.

ghost use Rattle.std.specs.Prelude.{◌≡◌};
ghost use Rattle.calendar.specs.Written.{numbers_span, days_span, checked_of};

use crate::Span;
use crate::days::any_day;
use dates::Date;

/// The period from a first to a last day, by their numbers and both counted, if it has 1 to 512 days.
pub fn days_from(from: usize, to: usize) -> Option<Span>
    ensures { result ≡ numbers_span from to }
{
    if to < from || 512 <= to - from {
        return None;
    }
    Some(Span {
        first: from,
        count: to - from + 1,
    })
}

/// The period from a first to a last date, both counted, if they are dates and it has 1 to 512 days.
pub fn days_between(first: Date, last: Date) -> Option<Span>
    ensures { result ≡ days_span first last }
{
    let from = first.day_number()?;
    let to = last.day_number()?;
    days_from(from, to)
}

// The period of a calendar that can be written.
pub(crate) fn check(days: &[u8], first: Date, last: Date) -> Option<Span>
    ensures { result ≡ checked_of days.now first last }
{
    if days.len() != 64 {
        return None;
    }
    let span = days_between(first, last)?;
    if any_day(days, span.count, 512) {
        return None;
    }
    Some(span)
}
