//! The dates of a POP, `first/last`.

ghost use Rattle.std.specs.Prelude.{◌≡◌};
ghost use Rattle.syntax.specs.Bytes.{plain};
ghost use Rattle.period.specs.Period.{span_in};

use calendar::{Span, days_between};

// The days of a text `first/last`.
fn read_span(text: &[u8]) -> Option<Span>
    ensures { result ≡ span_in text.now }
{
    if text.len() != 21 {
        return None;
    }
    if text[10] != b'/' {
        return None;
    }
    let first = dates::read_date(text, 0)?;
    let last = dates::read_date(text, 11)?;
    days_between(first, last)
}

// The days of a part that says `first/last`.
pub(crate) fn read_dates(part: &[u8]) -> Option<Span>
    ensures { result ≡ span_in (plain part.now) }
{
    let mut text = [0u8; 21];
    let n = values::copy_plain(part, &mut text)?;
    read_span(&text[..n])
}
