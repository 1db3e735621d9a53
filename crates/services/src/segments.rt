//! What a PRD and an MSD say, found by their offsets.

ghost use Rattle.std.specs.Prelude.{◌≡◌};
ghost use Rattle.services.specs.Services.{service_number, says_number, says_removal};

use crate::numbers::{is_product, plain_end};
use parts::{Part, bytes_of, part_at, segment_at};

// Where the number of the PRD at an offset stands.
pub(crate) fn number_at(s: &[u8], at: usize) -> Part
    ensures { result ≡ service_number s.now at }
{
    if is_product(s, at) {
        let from = at + 4;
        if let Some(to) = plain_end(s, from) {
            return Part { from, to };
        }
    }
    part_at(s, segment_at(s, at), 1, 1, 1)
}

// Whether the PRD at an offset has the given number.
pub(crate) fn says_number(s: &[u8], at: usize, number: &[u8]) -> bool
    ensures { result ≡ says_number s.now at number.now }
{
    values::same(bytes_of(s, number_at(s, at)), number)
}

// Whether 1225-1 of the MSD at an offset says 56.
pub(crate) fn says_removal(s: &[u8], at: usize) -> bool
    ensures { result ≡ says_removal s.now at }
{
    let code = part_at(s, segment_at(s, at), 1, 1, 2);
    values::equals(bytes_of(s, code), b"56")
}
