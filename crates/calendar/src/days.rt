//! Days as the bits of lent bytes.

ghost use Rattle.std.specs.Prelude.{◌≡◌, ◌-◌, ◌%◌};
ghost use Rattle.calendar.specs.Days.{has_bit, with_bit, day, with_day};
ghost use Rattle.calendar.specs.Written.{any_day};

/// Whether a bit of a byte is set, counted from the lowest.
pub fn has_bit(byte: u8, k: usize) -> bool
    ensures { result ≡ has_bit byte (k % 8) }
{
    (byte >> (k % 8)) & 1 == 1
}

/// The byte with that bit set too.
pub fn with_bit(byte: u8, k: usize) -> u8
    ensures { result ≡ with_bit byte (k % 8) }
{
    byte | (1u8 << (k % 8))
}

/// Whether the day k days after the first is selected; past the end none is.
pub fn test_day(days: &[u8], k: usize) -> bool
    ensures { result ≡ day days.now k }
{
    let at = k / 8;
    if days.len() <= at {
        return false;
    }
    has_bit(days[at], k)
}

/// Selects the day k days after the first; past the end there is none to select.
pub fn set_day(days: &mut [u8], k: usize)
    ensures { days.new ≡ with_day days.old k }
{
    let at = k / 8;
    if days.len() <= at {
        return;
    }
    days[at] = with_bit(days[at], k);
}

// Whether one of the days from one to before another is selected.
pub(crate) fn any_day(days: &[u8], from: usize, to: usize) -> bool
    ensures { result ≡ any_day days.now from (to - from) }
{
    (from..to).any(|k| test_day(days, k))
}
