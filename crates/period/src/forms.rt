//! The two forms of days: the day string, 4440, and the weekdays, 2160.

ghost use Rattle.std.specs.Prelude.{◌≡◌};
ghost use Rattle.syntax.specs.Bytes.{plain};
ghost use Rattle.parts.specs.Places.{present};
ghost use Rattle.period.specs.Period.{day_string, fits_days, rising_days, formed_of};

use crate::{Fault, Form};
use values::characters;

// Whether a part says anything.
fn is_present(part: &[u8]) -> bool
    ensures { result ≡ present (plain part.now) }
{
    characters(part).next().is_some()
}

// Whether a part is of `0` and `1` alone, at most one for each of n days. In a function of its own, so that the count stays out of memory: among all
// the values of the callers there is no register left for it.
#[inline(never)]
fn is_day_string(part: &[u8], n: usize) -> bool
    ensures { result ≡ day_string n (plain part.now) }
{
    // One walk, which stops at the first character that is wrong or one too many.
    let mut left = n;
    for b in characters(part) {
        if left == 0 || b < b'0' || b'1' < b {
            return false;
        }
        left -= 1;
    }
    true
}

// A day string that is absent is right too.
fn fits_days(part: &[u8], n: usize) -> bool
    ensures { result ≡ fits_days n (plain part.now) }
{
    if is_present(part) {
        return is_day_string(part, n);
    }
    true
}

// Whether the weekdays rise from each to the next.
#[tactic(auto, unfolding(crate::specs::Period::rising_days))]
fn is_rising(part: &[u8]) -> bool
    ensures { result ≡ rising_days 48 (plain part.now) }
{
    let mut low = b'0';
    for b in characters(part) {
        if b <= low || b'7' < b {
            return false;
        }
        low = b;
    }
    true
}

// What tells the days of a period of n days, each form judged by itself; where neither is given, the caller's wish decides.
pub(crate) fn read_form(days: &[u8], weekdays: &[u8], n: usize, wish: bool) -> Result<Form, Fault>
    ensures { result ≡ formed_of wish n (plain days.now) (plain weekdays.now) }
{
    let fits = fits_days(days, n);
    let rises = is_rising(weekdays);
    if !fits {
        return Err(Fault::BadDayString);
    }
    if !rises {
        return Err(Fault::BadWeekdays);
    }
    if is_present(days) {
        if is_present(weekdays) {
            return Err(Fault::BothForms);
        }
        return Ok(Form::ByString);
    }
    if is_present(weekdays) {
        return Ok(Form::ByWeekdays);
    }
    if wish {
        return Ok(Form::Every);
    }
    Err(Fault::NeitherForm)
}
