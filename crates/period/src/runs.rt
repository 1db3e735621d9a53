//! The days that run in a period that was read.

ghost use Rattle.std.specs.Prelude.{◌≡◌};
ghost use Rattle.parts.specs.Places.{bytes_of};
ghost use Rattle.period.specs.Period.{runs_by, runs_in};

use crate::elements::part_of;
use crate::{Fault, Form, Period};
use characters::{character_at, has_character};
use parts::Part;

// Whether the day k days after the first runs by a form.
fn form_runs(s: &[u8], segment: Part, form: Form, first: usize, k: usize) -> bool
    ensures { result ≡ runs_by (bytes_of s.now segment) form first k }
{
    match form {
        Form::Every => true,
        Form::ByString => character_at(part_of(s, segment, 1, 4), k) == b'1',
        Form::ByWeekdays => {
            let weekday = dates::weekday(first % 7 + k % 7);
            has_character(part_of(s, segment, 2, 1), 48 + weekday)
        }
    }
}

/// Whether the day k days after the first runs, of the period that was read from a segment.
pub fn day_runs(s: &[u8], segment: Part, period: Result<Period, Fault>, k: usize) -> bool
    ensures { result ≡ runs_in (bytes_of s.now segment) period k }
{
    match period {
        Ok(period) => {
            k < period.days.count && form_runs(s, segment, period.form, period.days.first, k)
        }
        Err(_) => false,
    }
}
