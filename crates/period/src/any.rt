//! A POP written in any way, part by part.

ghost use Rattle.std.specs.Prelude.{◌≡◌};
ghost use Rattle.parts.specs.Places.{bytes_of};
ghost use Rattle.period.specs.Period.{period_of};
ghost use Rattle.period.specs.Elements.{rest_in};

use crate::elements::{Element, find_element, find_second, is_repeated, text_in};
use crate::forms::read_form;
use crate::spans::read_dates;
use crate::{Fault, Period};
use parts::Part;

// The qualifier, and no repetition.
fn is_rest_good(s: &[u8], first: Element, second: Element) -> bool
    ensures { result ≡ rest_in s.now first second }
{
    if !values::equals(text_in(s, first, 1), b"273") {
        return false;
    }
    if is_repeated(s, first) {
        return false;
    }
    !is_repeated(s, second)
}

// The period of a POP written in any way, part by part.
pub(crate) fn read_any(s: &[u8], segment: Part, wish: bool) -> Result<Period, Fault>
    ensures { result ≡ period_of wish (bytes_of s.now segment) }
{
    let first = find_element(s, segment, 1);
    let Some(span) = read_dates(text_in(s, first, 2)) else {
        return Err(Fault::BadDates);
    };
    let second = find_second(s, segment, first);
    let days = text_in(s, first, 4);
    let weekdays = text_in(s, second, 1);
    let form = read_form(days, weekdays, span.count, wish)?;
    if !is_rest_good(s, first, second) {
        return Err(Fault::BadRest);
    }
    Ok(Period { days: span, form })
}
