//! The two dates of a POP as most are written: tested eight characters at a time, and their numbers read straight.

ghost use Rattle.std.specs.Prelude.{◌≡◌, true, ◌≤◌};
ghost use Rattle.period.specs.Dated.{DateAt, DatesIn, Pair, pair_in, day_in};

use dates::day_of;
use raw_bytes::{differing, eight_at};

// The bytes of `yyyy-mm-`, `dd/yyyy-` and `yy-mm-dd`, `0` in the place of a digit.
const FIRST: usize = 0x2d30_302d_3030_3030;

const MIDDLE: usize = 0x2d30_3030_302f_3030;

const LAST: usize = 0x3030_2d30_302d_3030;

// What may be added to each difference from those before its highest bit is set: 118 to a digit's, which is at most 9, and 127 to a mark's.
const FIRST_ROOM: usize = 0x7f76_767f_7676_7676;

const MIDDLE_ROOM: usize = 0x7f76_7676_767f_7676;

const LAST_ROOM: usize = 0x7676_7f76_767f_7676;

// Whether two dates with a `/` between them stand from index 8 on, by their digits and marks.
pub(crate) fn are_dates(g: &[u8]) -> bool
    ensures { result ≡ true → DatesIn g.now }
{
    let Some(first) = eight_at(g, 8) else {
        return false;
    };
    let Some(middle) = eight_at(g, 16) else {
        return false;
    };
    let Some(last) = eight_at(g, 21) else {
        return false;
    };
    let front = differing(first, FIRST, FIRST_ROOM) | differing(middle, MIDDLE, MIDDLE_ROOM);
    let bits = front | differing(last, LAST, LAST_ROOM);
    bits == 0
}

// The number of two digits.
fn pair_at(g: &[u8], at: usize) -> u32
    requires { Pair g.now at }
    ensures { (result ≡ pair_in g.now at) × (result ≤ 99) }
{
    let tens = g[at] as u32;
    let ones = g[at + 1] as u32;
    tens * 10 + ones - 528
}

// The number of the day that a date names.
pub(crate) fn day_at(g: &[u8], at: usize) -> Option<usize>
    requires { DateAt g.now at }
    ensures { result ≡ day_in g.now at }
{
    let year = pair_at(g, at) * 100 + pair_at(g, at + 2);
    day_of(year, pair_at(g, at + 5), pair_at(g, at + 8))
}
