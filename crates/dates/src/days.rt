//! The days of the Gregorian calendar from 1990 to 2099: the lengths of months and years, and a day's number there and back.

ghost use Rattle.std.specs.Prelude.{◌≡◌, true, ◌-◌, ◌≤◌, ◌<◌};
ghost use Rattle.dates.specs.Days.{leap_year, month_length, is_date, month_days, year_days, day_number};
ghost use Rattle.dates.specs.Dates.{day_of};
ghost use Rattle.dates.specs.Back.{InYear, InMonth};

use crate::Date;

// The year, or the month, that a day stands in, and how many of its days stand before that day.
#[derive(Clone, Copy)]
pub(crate) struct DayWithin {
    pub(crate) whole: u32,
    pub(crate) left: usize,
}

fn leap_year(year: u32) -> bool
    ensures { result ≡ leap_year year }
{
    if year % 100 == 0 {
        return year % 400 == 0;
    }
    year % 4 == 0
}

fn month_length(year: u32, month: u32) -> u32
    ensures { result ≡ month_length year month }
{
    match month {
        2 => { if leap_year(year) { 29 } else { 28 } }
        4 | 6 | 9 | 11 => 30,
        _ => 31,
    }
}

// Whether three numbers are a date of 1990-01-01 to 2099-12-31. Every month has 28 days, so few dates need their month's length.
pub(crate) fn is_date(year: u32, month: u32, day: u32) -> bool
    ensures { result ≡ is_date year month day }
{
    if year < Date::FIRST.year as u32 {
        return false;
    }
    if (Date::LAST.year as u32) < year {
        return false;
    }
    if month < 1 {
        return false;
    }
    if 12 < month {
        return false;
    }
    if day < 1 {
        return false;
    }
    if day <= 28 {
        return true;
    }
    day <= month_length(year, month)
}

// The days of the years before a year: 365 for each, and one for each leap year, which is each fourth, 1992 the first. 2000 is one too, and 2100 is
// past the last date.
fn days_before_year(year: u32) -> u32
    requires { (1990 ≤ year) × (year ≤ 2099) }
    ensures { (result ≡ year_days (year - 1990)) × (result ≤ 39812) }
{
    365 * (year - 1990) + (year - 1989) / 4
}

// The days of the months before a month: as if February had 30, and from March on without the one or two that it has not.
fn days_before_month(year: u32, month: u32) -> u32
    requires { (1990 ≤ year) × (year ≤ 2099) × (1 ≤ month) × (month ≤ 12) }
    ensures { (result ≡ month_days year (month - 1)) × (result ≤ 335) }
{
    let days = (367 * month - 362) / 12;
    if month < 3 {
        return days;
    }
    if year % 4 == 0 { days - 1 } else { days - 2 }
}

// How many days after 1990-01-01 a date is: the formula of docs/DAYS.md.
fn number_of(year: u32, month: u32, day: u32) -> usize
    requires { is_date year month day ≡ true }
    ensures { result ≡ day_number year month day }
{
    (days_before_year(year) + days_before_month(year, month) + (day - 1)) as usize
}

/// The number of the day that a year, a month and a day of the month make; none where they are no date.
pub fn day_of(year: u32, month: u32, day: u32) -> Option<usize>
    ensures { result ≡ day_of year month day }
{
    if is_date(year, month, day) {
        return Some(number_of(year, month, day));
    }
    None
}

fn year_length(year: u32) -> usize
    ensures { result ≡ month_days year 12 }
{
    if leap_year(year) { 366 } else { 365 }
}

// The year of a day number, and how many days of that year stand before it.
pub(crate) fn year_of(number: usize) -> DayWithin
    requires { number < 40177 }
    ensures { InYear result.whole result.left number }
{
    let mut left = number;
    for year in 1990..2100 {
        let length = year_length(year);
        if left < length {
            return DayWithin { whole: year, left };
        }
        left -= length;
    }
    unreachable!()
}

// The month of a day of a year, and how many days of that month stand before it.
pub(crate) fn month_of(year: u32, day: usize) -> DayWithin
    requires { day < month_days year 12 }
    ensures { InMonth year result.whole result.left day }
{
    let mut left = day;
    for month in 1..13 {
        let length = month_length(year, month) as usize;
        if left < length {
            return DayWithin { whole: month, left };
        }
        left -= length;
    }
    unreachable!()
}
