//! Calendars: the days on which a service runs, as bits in lent bytes, and the two forms in which they are written.

#![tactic(auto)]

mod day_string;
mod days;
mod spans;
mod start;
mod weekdays;

pub use day_string::{put_days, write_day_string};
pub use days::{has_bit, set_day, test_day, with_bit};
pub use spans::{days_between, days_from};
pub use weekdays::write_weekdays;

/// Why a calendar is not written.
#[derive(Clone, Copy, PartialEq, Eq, Debug)]
pub enum WriteError {
    /// 19: the dates or the length are bad, or a bit stands past the last day.
    BadCalendar,
    /// 20: the days are not all those of some weekdays.
    NoWeekdayForm,
    /// 17: the lent bytes are too few.
    NoRoom,
}

/// A period: the number of its first day, and how many days it has.
#[derive(Clone, Copy)]
pub struct Span {
    pub first: usize,
    pub count: usize,
}
