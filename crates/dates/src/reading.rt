//! The date that ten bytes say.

ghost use Rattle.std.specs.Prelude.{◌≡◌, ◌+◌, ◌≤◌, length};
ghost use Rattle.dates.specs.Text.{two_digits, digits_at, four_digits, date_at};

use crate::Date;

// The number of two bytes that are digits.
fn two_digits(tens: u8, ones: u8) -> Option<u32>
    ensures { result ≡ two_digits tens ones }
{
    if !tens.is_ascii_digit() || !ones.is_ascii_digit() {
        return None;
    }
    Some((tens - b'0') as u32 * 10 + (ones - b'0') as u32)
}

fn digits_at(text: &[u8], at: usize) -> Option<u32>
    requires { at + 2 ≤ length text.now }
    ensures { result ≡ digits_at text.now at }
{
    two_digits(text[at], text[at + 1])
}

fn year_at(text: &[u8], at: usize) -> Option<u32>
    requires { at + 4 ≤ length text.now }
    ensures { result ≡ four_digits (digits_at text.now at) (digits_at text.now (at + 2)) }
{
    let century = digits_at(text, at)?;
    let year = digits_at(text, at + 2)?;
    Some(century * 100 + year)
}

/// The date that stands as yyyy-mm-dd at an offset.
pub fn read_date(text: &[u8], at: usize) -> Option<Date>
    ensures { result ≡ date_at text.now at }
{
    if text.len() < 10 || text.len() - 10 < at {
        return None;
    }
    if text[at + 4] != b'-' || text[at + 7] != b'-' {
        return None;
    }
    let year = year_at(text, at)?;
    let month = digits_at(text, at + 5)?;
    let day = digits_at(text, at + 8)?;
    Date::new(year, month, day)
}
