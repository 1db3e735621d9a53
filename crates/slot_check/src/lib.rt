//! Whether lent bytes are a slot in use. A slot is 140 bytes: a number filled up with zeros to 10, then twice a flag and a calendar of 64,
//! the live one and the pending one.

#![tactic(auto)]

ghost use Rattle.std.specs.Prelude.{◌≡◌, length, take};
ghost use Rattle.syntax.specs.Segment.{permitted_run};
ghost use Rattle.slot_check.specs.Number.{is_number};
ghost use Rattle.slot_check.specs.Slot.{is_slot};

use slots::words;

const SLOT: usize = 140;

const NUMBER: usize = 10;

// How many bytes, from the first on, are permitted.
fn permitted_run(x: &[u8]) -> usize
    ensures { result ≡ permitted_run x.now }
{
    for (i, &b) in x.iter().enumerate() {
        if !syntax::bytes::permitted(b) {
            return i;
        }
    }
    x.len()
}

// Whether a slot's number is one, filled up with zeros: byte by byte.
fn is_long(slot: &[u8]) -> bool
    requires { length slot.now ≡ 140 }
    ensures { result ≡ is_number (take 10 slot.now) }
{
    let end = permitted_run(slot);
    if end == 0 {
        return false;
    }
    if NUMBER <= end {
        return true;
    }
    gaps::is_zero(&slot[end..NUMBER])
}

// The same. One of at most eight characters is a word, whose highest byte is looked at, again and again, until nothing is left.
// The sixteen bytes from `0` on, the digits among them, are permitted: of these four bits tell.
fn is_number(slot: &[u8]) -> bool
    requires { length slot.now ≡ 140 }
    ensures { result ≡ is_number (take 10 slot.now) }
{
    let mut left = words::high(slot);
    if words::low(slot) != 0 {
        return is_long(slot);
    }
    if left == 0 {
        return false;
    }
    // The bytes are shifted out of a word: there is no index, and the loop ends once all that are left are 0.
    while left != 0 {
        if left >> 60 != 3 {
            if !syntax::bytes::permitted((left >> 56) as u8) {
                return false;
            }
        }
        left = left << 8;
    }
    true
}

/// Whether bytes are a slot in use: its number, a live calendar or none, a pending entry or none.
pub fn is_slot(slot: &[u8]) -> bool
    ensures { result ≡ is_slot slot.now }
{
    if slot.len() != SLOT {
        return false;
    }
    let live = slot[10];
    let pending = slot[75];
    if !is_number(slot) {
        return false;
    }
    if live == 0 {
        if pending != 1 {
            return false;
        }
        return gaps::is_zero(&slot[11..75]);
    }
    if live != 1 {
        return false;
    }
    if pending == 1 {
        return true;
    }
    if pending > 2 {
        return false;
    }
    gaps::is_zero(&slot[76..140])
}
