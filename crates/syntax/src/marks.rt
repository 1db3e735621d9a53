//! Whether a segment has too few characters and marks to pass a limit.

ghost use Rattle.std.specs.Prelude.{◌≡◌, true, ◌+◌, ◌-◌, ◌≤◌, ◌<◌, leb, length};
ghost use Rattle.laws.specs.Choice.{pick};
ghost use Rattle.syntax.specs.Bytes.{is_mark};
ghost use Rattle.syntax.specs.Few.{marks_in};
ghost use Rattle.syntax.specs.Passed.{eight_times};
ghost use Rattle.syntax.specs.Texts.{texts_of, SeenTwice};

use crate::ends::eight_at;

// 1 for `+`, `*` or `:`, 0 for any other byte. The first two differ in the lowest digit only.
fn mark_of(b: u8) -> u8
    ensures { result ≡ pick (is_mark b) 1 0 }
{
    (b | 1 == b'+') as u8 + (b == b':') as u8
}

// How many marks a few bytes have. The count is a byte too, so that the compiler counts in as many bytes at once.
fn marks_in(p: &[u8]) -> u8
    requires { length p.now ≤ 128 }
    ensures { result ≡ marks_in p.now }
{
    let mut marks: u8 = 0;
    for &b in p {
        marks += mark_of(b);
    }
    marks
}

// The end of the next 128 bytes of n, or of fewer.
fn next_end(i: usize, n: usize) -> usize
    requires { i < n }
    ensures { (i < result) × (result ≤ n) × (result - i ≤ 128) }
{
    i + usize::min(n - i, 128)
}

// 17, 59, 127 and 128, each eight times.
const SEVENTEEN: u64 = 0x1111_1111_1111_1111;

const FIFTY_NINE: u64 = 0x3b3b_3b3b_3b3b_3b3b;

const LOWEST: u64 = 0x7f7f_7f7f_7f7f_7f7f;

const HIGHEST: u64 = 0x8080_8080_8080_8080;

/// The highest digit of each of eight bytes, set where the byte is no mark; `;` goes for one.
pub(crate) fn texts_in(x: u64) -> u64
    ensures { result ≡ texts_of eight_times x }
{
    ((((x | SEVENTEEN) ^ FIFTY_NINE) & LOWEST) + LOWEST) & HIGHEST
}

// How many of twice eight bytes, from two indexes on, are seen to be no marks. Each byte of `sum` counts those of its place among eight; in halves, then by one
// product, the bytes are added up.
fn texts_at(p: &[u8], i: usize, j: usize) -> usize
    requires { (i + 8 ≤ length p.now) × (j + 8 ≤ length p.now) }
    ensures { SeenTwice p.now i j result }
{
    let sum = texts_in(eight_at(p, i)) / 128 + texts_in(eight_at(p, j)) / 128;
    let halves = (sum + sum / 4294967296) % 4294967296;
    (halves * 16843009 / 16777216 % 256) as usize
}

// Whether at most 31 of the bytes can be marks, as so many of the first 32 are seen to be none. Often half of these are enough: the first and the third eight,
// which the compiler does not put together as it does those that stand side by side.
fn has_text(p: &[u8]) -> bool
    ensures { result ≡ true → marks_in p.now ≤ 31 }
{
    if p.len() < 32 {
        return true;
    }
    let needed = p.len() - 31;
    let texts = texts_at(p, 0, 16);
    if needed <= texts {
        return true;
    }
    needed <= texts + texts_at(p, 8, 24)
}

// Whether at most 512 bytes have few marks.
fn has_few(p: &[u8]) -> bool
    requires { length p.now ≤ 512 }
    ensures { result ≡ leb (marks_in p.now) 31 }
{
    let mut marks: u16 = 0;
    let mut i = 0;
    // The index moves by what was counted, not by one.
    while i < p.len() {
        let e = next_end(i, p.len());
        marks += marks_in(&p[i..e]) as u16;
        i = e;
    }
    marks <= 31
}

/// Whether a segment of at most 512 bytes has too few marks to pass a limit. Most that are looked at have much text and few marks.
pub(crate) fn is_small(p: &[u8]) -> bool
    requires { length p.now ≤ 512 }
    ensures { result ≡ leb (marks_in p.now) 31 }
{
    if has_text(p) {
        return true;
    }
    has_few(p)
}
