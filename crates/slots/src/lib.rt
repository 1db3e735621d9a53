//! A run of slots of one length in lent bytes: found by number, and checked.
//! A slot is 140 bytes: its number, 10 bytes filled up with zeros, then two more. A slot whose first byte is 0 is not used.

#![tactic(auto)]

pub mod words;

ghost use Rattle.std.specs.Prelude.{◌≡◌, ◌+◌, ◌≤◌, length, take, drop};
ghost use Rattle.slots.specs.Order.{order_of};
ghost use Rattle.slots.specs.Find.{number_order, find_of};
ghost use Rattle.slots.specs.Rising.{rises, rising, leading};
ghost use Rattle.slots.specs.Slots.{slots_of};
ghost use Rattle.slots.specs.Steps.{WordsOf};

use raw_bytes::byte_at;
use std::cmp::Ordering;
use std::num::wrapping_sub_usize;

const SLOT: usize = 140;

const NUMBER: usize = 10;

// The least of eight bytes, the first the highest, whose first byte is not 0.
const LEAST: usize = 0x0100_0000_0000_0000;

/// Byte by byte; a shorter text comes before its extensions.
pub fn compare(a: &[u8], b: &[u8]) -> Ordering
    ensures { result ≡ order_of a.now b.now }
{
    a.cmp(b)
}

// How the slot at an index stands to a number; a slot that is not used comes after every number. How far its first word is below that of
// the number, round past 0, tells it in one test: not farther than the least number is, it comes before.
fn number_order(room: &[u8], at: usize, number: &[u8], high: usize, low: usize) -> Ordering
    requires { (at + 140 ≤ length room.now) × WordsOf number.now high low }
    ensures { result ≡ number_order number.now (take 140 (drop at room.now)) }
{
    let end = at + NUMBER;
    let behind = wrapping_sub_usize(high, words::high(&room[at..end]));
    if behind == 0 {
        let lengths = NUMBER.cmp(&number.len());
        return words::low(&room[at..end]).cmp(&low).then(lengths);
    }
    if behind <= high - LEAST {
        return Ordering::Less;
    }
    Ordering::Greater
}

// The slot that has a number, or as an error the one before which it would go: of one that does not begin with 0, by its words.
fn find_words(room: &[u8], number: &[u8], high: usize, low: usize) -> Result<usize, usize>
    requires { WordsOf number.now high low }
    ensures { result ≡ find_of room.now number.now }
{
    let mut lo = 0;
    let mut hi = room.len() / SLOT;
    // The slot in the middle tells which end moves, and how far: there is no index to step.
    while lo < hi {
        let mid = lo + (hi - lo) / 2;
        match number_order(room, mid * SLOT, number, high, low) {
            Ordering::Less => {
                lo = mid + 1;
            }
            Ordering::Equal => {
                return Ok(mid);
            }
            Ordering::Greater => {
                hi = mid;
            }
        }
    }
    Err(lo)
}

/// The slot that has a number, or as an error the one before which it would go, by halving.
pub fn find(room: &[u8], number: &[u8]) -> Result<usize, usize>
    ensures { result ≡ find_of room.now number.now }
{
    if byte_at(number, 0) == 0 {
        return Err(0);
    }
    // Where the length is known, the bytes are read with no test of each.
    if number.len() == NUMBER {
        return find_words(room, number, words::high(number), words::low(number));
    }
    find_words(room, number, words::high(number), words::low(number))
}

/// How many slots, from the first on, are used.
pub fn used(room: &[u8]) -> usize
    ensures { result ≡ leading (slots_of room.now) }
{
    let n = room.len() / SLOT;
    for k in 0..n {
        if room[k * SLOT] == 0 {
            return k;
        }
    }
    n
}

// Whether the number of the slot at an index comes before that of the next slot.
fn rises_at(room: &[u8], at: usize) -> bool
    requires { at + 280 ≤ length room.now }
    ensures { result ≡ rises (take 140 (drop at room.now)) (take 140 (drop (at + 140) room.now)) }
{
    let end = at + NUMBER;
    let next = at + SLOT;
    let next_end = next + NUMBER;
    compare(&room[at..end], &room[next..next_end]).is_lt()
}

/// Whether the numbers of the slots rise strictly.
pub fn is_rising(room: &[u8]) -> bool
    ensures { result ≡ rising (slots_of room.now) }
{
    let n = room.len() / SLOT;
    for k in 1..n {
        if !rises_at(room, (k - 1) * SLOT) {
            return false;
        }
    }
    true
}
