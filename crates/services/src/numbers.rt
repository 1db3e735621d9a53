//! The number of a PRD, written as most are: behind `PRD+`, with no release in it and a mark behind it.

ghost use Rattle.std.specs.Prelude.{◌≡◌, true, ◌+◌, ◌≤◌, ◌<◌, length, IfSome};
ghost use Rattle.syntax.specs.Bytes.{plain};
ghost use Rattle.services.specs.Services.{number_fits};
ghost use Rattle.services.specs.Numbers.{Plain, Closing, number_end, Product};

// Whether a digit, or a byte behind the service characters: most numbers have no other.
fn is_plain(b: u8) -> bool
    ensures { result ≡ true → Plain b }
{
    if b < b'0' {
        return false;
    }
    if b <= b'9' {
        return true;
    }
    b'?' < b
}

// Whether a byte is a mark or the terminator.
fn is_closing(b: u8) -> bool
    ensures { result ≡ true → Closing b }
{
    if b == b':' {
        return true;
    }
    if b == b'+' {
        return true;
    }
    if b == b'*' {
        return true;
    }
    b == b'\''
}

// An index if its byte is not plain, else a later one, up to which the number goes on from the next byte on.
fn plain_from(s: &[u8], i: usize, later: usize) -> usize
    requires { (i < length s.now) × (number_end s.now (i + 1) ≡ number_end s.now later) }
    ensures { number_end s.now i ≡ number_end s.now result }
{
    if is_plain(s[i]) { later } else { i }
}

// Past plain bytes, six at most, with no branch for each: most numbers have no more.
fn past_plain(s: &[u8], from: usize) -> usize
    ensures { number_end s.now from ≡ number_end s.now result }
{
    if s.len() < 6 {
        return from;
    }
    if s.len() - 6 < from {
        return from;
    }
    let sixth = plain_from(s, from + 5, from + 6);
    let fifth = plain_from(s, from + 4, sixth);
    let fourth = plain_from(s, from + 3, fifth);
    let third = plain_from(s, from + 2, fourth);
    let second = plain_from(s, from + 1, third);
    plain_from(s, from, second)
}

// Where the number that starts at an index ends, if plain bytes stand before a mark there.
pub(crate) fn plain_end(s: &[u8], from: usize) -> Option<usize>
    ensures { IfSome result (λ end. end ≡ number_end s.now from) }
{
    for i in past_plain(s, from)..s.len() {
        let b = s[i];
        if !is_plain(b) {
            if is_closing(b) {
                return Some(i);
            }
            return None;
        }
    }
    None
}

// 0 only for two bytes that are the same.
fn other(a: u8, b: u8) -> u32
    ensures { (result ≡ 0 → a ≡ b) × (result ≤ 1) }
{
    if a == b { 0 } else { 1 }
}

// Whether a PRD with its mark stands at an offset, with one branch for its four bytes.
pub(crate) fn is_product(s: &[u8], at: usize) -> bool
    ensures { result ≡ true → Product s.now at }
{
    if s.len() < 4 {
        return false;
    }
    if s.len() - 4 < at {
        return false;
    }
    let first = other(s[at], b'P');
    let second = other(s[at + 1], b'R');
    let third = other(s[at + 2], b'D');
    let fourth = other(s[at + 3], b'+');
    first + second + third + fourth == 0
}

// Whether a number, as written, has 1 to 10 characters after release. Of 2 to 10 bytes at least one is no release, so that they need no
// walk.
pub(crate) fn number_fits(number: &[u8]) -> bool
    ensures { result ≡ number_fits (length (plain number.now)) }
{
    if 2 <= number.len() {
        if number.len() <= 10 {
            return true;
        }
    }
    let length = values::plain_length(number);
    if length < 1 {
        return false;
    }
    length <= 10
}
