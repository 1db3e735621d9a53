//! Dates of the Gregorian calendar from 1990-01-01 to 2099-12-31: made, numbered, read and written.

#![tactic(auto)]

mod days;
mod reading;

ghost use Rattle.std.specs.Prelude.{◌≡◌};
ghost use Rattle.laws.specs.Decimal.{digit};
ghost use Rattle.dates.specs.Days.{weekday_of};
ghost use Rattle.dates.specs.Dates.{date, made_of, number_of, dated};
ghost use Rattle.dates.specs.Text.{date_text};

use crate::days::{is_date, month_of, year_of};
pub use days::day_of;
pub use reading::read_date;

/// A day by its year, month and day of the month.
#[derive(Clone, Copy)]
pub struct Date {
    pub year: u16,
    pub month: u8,
    pub day: u8,
}

/// The weekday of a day number: Monday is 1 and Sunday 7.
pub fn weekday(number: usize) -> u8
    ensures { result ≡ weekday_of number }
{
    (number % 7) as u8 + 1
}

// These two hold the constants to document 01's dates.
fn first() -> Date
    ensures { result ≡ date 1990 1 1 }
{
    Date::FIRST
}

fn last() -> Date
    ensures { result ≡ date 2099 12 31 }
{
    Date::LAST
}

impl Date {
    /// The first date that there is.
    pub const FIRST: Date = Date {
        year: 1990,
        month: 1,
        day: 1,
    };

    /// The last date that there is.
    pub const LAST: Date = Date {
        year: 2099,
        month: 12,
        day: 31,
    };

    /// The date of a year, a month and a day of the month; none where they are no date of 1990 to 2099.
    pub fn new(year: u32, month: u32, day: u32) -> Option<Date>
        ensures { result ≡ made_of year month day }
    {
        if is_date(year, month, day) {
            return Some(Date {
                year: year as u16,
                month: month as u8,
                day: day as u8,
            });
        }
        None
    }

    /// How many days after 1990-01-01 the date is; none where the fields are no date.
    pub fn day_number(self) -> Option<usize>
        ensures { result ≡ number_of self }
    {
        day_of(self.year as u32, self.month as u32, self.day as u32)
    }

    /// The date of a day number; none past that of the last date.
    pub fn from_number(number: usize) -> Option<Date>
        ensures { result ≡ dated number }
    {
        if 40177 <= number {
            return None;
        }
        let year = year_of(number);
        let month = month_of(year.whole, year.left);
        Date::new(year.whole, month.whole, month.left as u32 + 1)
    }

    /// The ten bytes yyyy-mm-dd.
    pub fn text(self) -> [u8; 10]
        ensures { result ≡ date_text self }
    {
        let year = self.year;
        let month = self.month as u16;
        let day = self.day as u16;
        [
            digit(year / 1000),
            digit(year / 100),
            digit(year / 10),
            digit(year),
            b'-',
            digit(month / 10),
            digit(month),
            b'-',
            digit(day / 10),
            digit(day),
        ]
    }
}

// The last decimal digit of a number, as a byte.
fn digit(number: u16) -> u8
    ensures { result ≡ digit number }
{
    48 + (number % 10) as u8
}
