//! A mark for each number that came: a number whose mark is not set did not come.

ghost use Rattle.std.specs.Prelude.{◌≡◌, ◌<◌, length, set};
ghost use Rattle.service_tests.specs.Marks.{ten_mark, is_marked};

use slots::words::{high, low};

// The mark of a number as it stands in a slot: its ten bytes as one number, divided. What remains by 15,997 differs for all numbers of four
// digits, and for some hundreds of as many digits that follow one another.
pub(crate) fn mark_of(number: [u8; 10]) -> usize
    ensures { result ≡ ten_mark number }
{
    (high(&number) % 15997 * 65536 + low(&number) % 65536) % 15997
}

// Sets a mark, and tells whether it was set.
pub(crate) fn set_mark(marks: &mut [u8], k: usize) -> bool
    requires { k < length marks.old }
    ensures told { result ≡ is_marked marks.old k }
    ensures left { marks.new ≡ set marks.old k 1 }
{
    let was = marks[k] != 0;
    marks[k] = 1;
    was
}
