//! Whether lent bytes are a register: a head, eight rooms of slots and zeros behind them, 35,858 bytes in all.
//! A slot is 140 bytes: a number filled up with zeros to 10, then twice a flag and a calendar of 64, live and pending.

#![tactic(auto)]

ghost use Rattle.std.specs.Prelude.{◌≡◌, ◌+◌, ◌*◌, ◌/◌, ◌%◌, ◌≤◌, ◌<◌, length, get_or, drop};
ghost use Rattle.contents.specs.Written.{numbers_in, is_register};
ghost use Rattle.checking.specs.Room.{is_room};
ghost use Rattle.checking.specs.Register.{rooms_fit};

use raw_bytes::number_at;
use slots::words;

const LENGTH: usize = 35858;

const HEAD: usize = 18;

const SLOT: usize = 140;

// The days of a window, and how many dates there are.
const WINDOW: usize = 512;

const DATES: usize = 40177;

// Whether bytes are an account's room. Before the first number stands 0, which comes before every number. A slot whose number does not
// rise is not used, or the room is none.
fn is_room(room: &[u8]) -> bool
    requires { length room.now % 140 ≡ 0 }
    ensures { result ≡ is_room (length room.now / 140) room.now }
{
    let mut high = 0;
    let mut low = 0;
    let mut at = 0;
    // The index moves by a slot, as far as its number rises; what is left of the room then is looked at from there.
    while at < room.len() {
        let next = at + SLOT;
        let next_high = words::high(&room[at..next]);
        let next_low = words::low(&room[at..next]);
        if !words::rises(high, low, next_high, next_low) {
            return gaps::is_zero(&room[at..]);
        }
        if !slot_check::is_slot(&room[at..next]) {
            return false;
        }
        high = next_high;
        low = next_low;
        at = next;
    }
    true
}

// Whether behind the head stand a room for each quota, and zeros.
fn are_rooms(b: &[u8]) -> bool
    requires { length b.now ≡ 35858 }
    ensures { result ≡ rooms_fit (numbers_in 8 (drop 2 b.now)) (drop 18 b.now) }
{
    let mut at = HEAD;
    for k in 0..8 {
        let room = number_at(b, 2 + k * 2) * SLOT;
        if b.len() - at < room {
            return false;
        }
        let end = at + room;
        if !is_room(&b[at..end]) {
            return false;
        }
        at = end;
    }
    gaps::is_zero(&b[at..LENGTH])
}

/// Whether bytes are a register.
pub fn is_register(b: &[u8]) -> bool
    ensures { result ≡ is_register b.now }
{
    if b.len() != LENGTH {
        return false;
    }
    if number_at(b, 0) + WINDOW > DATES {
        return false;
    }
    are_rooms(b)
}
