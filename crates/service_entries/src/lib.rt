//! What an account's room holds of a number, and what a service makes of it: on any bytes.

#![tactic(auto)]

mod numbers;
mod orders;

ghost use Rattle.std.specs.Prelude.{◌≡◌, ◌∷◌, map, ◌+◌, ◌≤◌, min, length};
ghost use Rattle.syntax.specs.Segment.{body_at};
ghost use Rattle.joining.specs.Joined.{join_all};
ghost use Rattle.gaps.specs.Move.{inserted_in};
ghost use Rattle.services.specs.Services.{periods_from, services_of};
ghost use Rattle.stages.specs.Stage.{days_of};
ghost use Rattle.service_entries.specs.Room.{known_at, held_at, new_slot, put_in, slot_removed, remove_in, remove_bytes, put_bytes, removes_in, puts_in};
ghost use Rattle.service_entries.specs.Front.{Ends};

use joining::join_at;
pub use numbers::{Number, number_of, read_number};
pub use orders::{put_order, put_orders};
use services::{Periods, Service, Services};

const SLOT: usize = 140;

// Where a slot has its live flag and its pending flag, each with a calendar behind it.
const LIVE: usize = 10;

const PENDING: usize = 75;

/// What is known of a record that an account holds.
#[derive(Clone, Copy)]
pub struct Known {
    /// Whether it has a live calendar.
    pub live: bool,
    /// Whether its removal is pending.
    pub removal_pending: bool,
}

// The flags of the slot at an index.
fn known_at(room: &[u8], at: usize) -> Known
    requires { at + 140 ≤ length room.now }
    ensures { result ≡ known_at room.now at }
{
    Known {
        live: room[at + LIVE] != 0,
        removal_pending: room[at + PENDING] == 2,
    }
}

/// What a room holds of a number as it stands in a slot: its record, if there is one.
pub fn held(room: &[u8], number: [u8; 10]) -> Option<Known>
    ensures { result ≡ held_at room.now number }
{
    match slots::find(room, &number) {
        Ok(k) => Some(known_at(room, k * SLOT)),
        Err(_) => None,
    }
}

/// The days of the POPs among rows, over the window; the wish is whether the caller asks for the old reading of a POP with neither form.
pub fn days_of(first: usize, s: &[u8], rows: &[u32], from: usize, to: usize, wish: bool) -> [u8; 64]
    ensures { result ≡ days_of wish first s.now (periods_from rows.now from to) }
{
    let mut days = [0u8; 64];
    for at in Periods::among(rows, from, to) {
        // A POP that is refused leaves the days as they are.
        let _ = join_at(&mut days, first, s, at, wish);
    }
    days
}

// A pending entry: its flag, and its calendar.
pub(crate) fn entry_of(flag: u8, days: [u8; 64]) -> [u8; 65]
    ensures { result ≡ flag ∷ days }
{
    let mut entry = [0u8; 65];
    entry[0] = flag;
    raw_bytes::put_bytes(&mut entry, 1, &days);
    entry
}

// The slot of a number with no live calendar.
fn new_slot(number: [u8; 10], entry: [u8; 65]) -> [u8; 140]
    ensures { result ≡ new_slot number entry }
{
    let mut slot = [0u8; 140];
    raw_bytes::put_bytes(&mut slot, 0, &number);
    raw_bytes::put_bytes(&mut slot, PENDING, &entry);
    slot
}

// From where on a room's bytes are all 0: behind its used slots, else at its end.
pub(crate) fn end_of(room: &[u8]) -> usize
    ensures { Ends room.now result }
{
    let end = slots::used(room) * SLOT;
    if gaps::is_zero(&room[end..]) {
        return end;
    }
    room.len()
}

// Where a slot more ends, or the room.
fn slot_more(end: usize, len: usize) -> usize
    requires { end ≤ len }
    ensures { result ≡ min (end + 140) len }
{
    if len - end < SLOT {
        return len;
    }
    end + SLOT
}

// Puts a slot in at an index of a room whose bytes are all 0 from another index on: those are not moved. Answers from where on they are 0
// then.
fn insert_slot(room: &mut [u8], at: usize, slot: [u8; 140], end: usize) -> usize
    requires { (at ≤ length room.old) × Ends room.old end }
    ensures left { room.new ≡ inserted_in room.old at slot }
    ensures zeros { Ends room.new result }
{
    let top = slot_more(at.max(end), room.len());
    gaps::insert(&mut room[..top], at, &slot);
    top
}

// Sets the pending entry of a number, in its slot or in a new one. Takes and answers from where on the bytes are all 0.
pub(crate) fn put_service(room: &mut [u8], number: [u8; 10], entry: [u8; 65], end: usize) -> usize
    requires { Ends room.old end }
    ensures left { room.new ≡ put_in room.old number entry }
    ensures zeros { Ends room.new result }
{
    match slots::find(room, &number) {
        Ok(k) => {
            let at = k * SLOT;
            raw_bytes::put_bytes(room, at + PENDING, &entry);
            end.max(at + SLOT)
        }
        Err(k) => {
            let slot = new_slot(number, entry);
            insert_slot(room, k * SLOT, slot, end)
        }
    }
}

// Removes the record of the slot at an index: its removal is pending where it is live, else it goes.
fn remove_at(room: &mut [u8], at: usize)
    requires { at + 140 ≤ length room.old }
    ensures { room.new ≡ slot_removed room.old at }
{
    if room[at + LIVE] == 0 {
        gaps::close_gap(room, at, SLOT);
        return;
    }
    let entry = entry_of(2, [0u8; 64]);
    raw_bytes::put_bytes(room, at + PENDING, &entry);
}

// Removes the record of a number, if there is one.
fn remove_service(room: &mut [u8], number: [u8; 10])
    ensures { room.new ≡ remove_in room.old number }
{
    match slots::find(room, &number) {
        Ok(k) => {
            remove_at(room, k * SLOT);
        }
        Err(_) => {}
    }
}

// What a service removes.
fn remove_one(room: &mut [u8], s: &[u8], service: Service)
    ensures { room.new ≡ remove_bytes s.now service room.old }
{
    if !service.removal {
        return;
    }
    let number = service.number;
    remove_service(room, number_of(s, number));
}

// What a service puts. Takes and answers from where on the bytes are all 0.
fn put_one(
    room: &mut [u8],
    first: usize,
    s: &[u8],
    rows: &[u32],
    service: Service,
    end: usize,
) -> usize
    requires { Ends room.old end }
    ensures left { room.new ≡ put_bytes first s.now rows.now service room.old }
    ensures zeros { Ends room.new result }
{
    if service.removal {
        return end;
    }
    let number = service.number;
    // The POPs of an accepted reading are good, so that the old reading says the same of them.
    let days = days_of(first, s, rows, service.from, service.to, true);
    put_service(room, number_of(s, number), entry_of(1, days), end)
}

/// All removals among the services of n rows.
pub fn remove_all(room: &mut [u8], s: &[u8], rows: &[u32], n: usize)
    ensures { room.new ≡ removes_in s.now (services_of s.now rows.now n) room.old }
{
    for service in Services::of(s, rows, n) {
        remove_one(room, s, service);
    }
}

/// All puts among the services of n rows.
pub fn put_all(room: &mut [u8], first: usize, s: &[u8], rows: &[u32], n: usize)
    ensures { room.new ≡ puts_in first s.now rows.now (services_of s.now rows.now n) room.old }
{
    let mut end = end_of(room);
    for service in Services::of(s, rows, n) {
        end = put_one(room, first, s, rows, service, end);
    }
}
