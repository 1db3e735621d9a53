//! What release and withdraw do to an account's room, in place, on any bytes of a room. Document 01, "The register".

#![tactic(auto)]

ghost use Rattle.std.specs.Prelude.{◌≡◌, ◌++◌, ◌+◌, ◌*◌, ◌≤◌, length, get_or, take, drop};
ghost use Rattle.std.proofs.Math.Seq.{paste};
ghost use Rattle.laws.specs.Choice.{all};
ghost use Rattle.laws.specs.Filled.{filled_up};
ghost use Rattle.syntax.specs.Bytes.{permitted_of};
ghost use Rattle.contents.specs.Contents.{good_number};
ghost use Rattle.entries.specs.Release.{kept_slot, settled_slot, pending_one, pending_slots, used_slots, released_room};
ghost use Rattle.entries.specs.Released.{SoFar};
ghost use Rattle.entries.specs.Withdraw.{slot_found, withdraws_at, left_at, withdraws, withdrawn_room};

const SLOT: usize = 140;

// Where a slot has its live flag and its pending flag, each with a calendar behind it.
const LIVE: usize = 10;

const PENDING: usize = 75;

// A flag and a calendar.
const ENTRY: usize = 65;

// The slots in front of the first removal: how many they are, and how many had a pending entry.
#[derive(Clone, Copy)]
struct Front {
    slots: usize,
    pending: usize,
}

// 1 if the slot at an index has a pending entry, else 0.
fn pending_at(room: &[u8], at: usize) -> usize
    requires { at + 140 ≤ length room.now }
    ensures { result ≡ pending_one (take 140 (drop at room.now)) }
{
    if room[at + PENDING] == 0 { 0 } else { 1 }
}

// The slot at an index.
fn whole_slot(room: &[u8], at: usize) -> [u8; 140]
    requires { at + 140 ≤ length room.now }
    ensures { result ≡ take 140 (drop at room.now) }
{
    let mut slot = [0u8; 140];
    let end = at + SLOT;
    raw_bytes::put_bytes(&mut slot, 0, &room[at..end]);
    slot
}

// Makes a pending put of the slot at an index live, in its place: its flag and its calendar move down over the live ones.
fn make_live(room: &mut [u8], at: usize)
    requires { (at + 140 ≤ length room.old) × (get_or room.old (at + 75) 0 ≤ 1) }
    ensures { room.new ≡ paste room.old at (kept_slot (take 140 (drop at room.old))) 140 }
{
    if room[at + PENDING] == 0 {
        return;
    }
    let live = at + LIVE;
    let end = at + SLOT;
    gaps::close_gap(&mut room[live..end], 0, ENTRY);
}

// Writes the slot at one index to another that is not behind it.
fn move_slot(room: &mut [u8], from: usize, to: usize)
    requires { (from + 140 ≤ length room.old) × (to ≤ from) }
    ensures { room.new ≡ paste room.old to (take 140 (drop from room.old)) 140 }
{
    let slot = whole_slot(room, from);
    let end = to + SLOT;
    raw_bytes::put_bytes(&mut room[to..end], 0, &slot);
}

// Writes what a release leaves of the slot at one index to another, and says where that ends. The slots behind it stay.
fn settle(room: &mut [u8], from: usize, to: usize) -> usize
    requires { (from + 140 ≤ length room.old) × (to ≤ from) }
    ensures told { result ≡ to + length (settled_slot (take 140 (drop from room.old))) }
    ensures left { take result room.new ≡ take to room.old ++ settled_slot (take 140 (drop from room.old)) }
    ensures behind { drop (from + 140) room.new ≡ drop (from + 140) room.old }
{
    if 1 < room[from + PENDING] {
        return to;
    }
    make_live(room, from);
    move_slot(room, from, to);
    to + SLOT
}

// Makes the puts in front of the first removal live: none of these slots moves.
fn settle_front(room: &mut [u8]) -> Front
    ensures { SoFar room.old room.new result.slots (result.slots * 140) result.pending }
{
    let n = room.len() / SLOT;
    let mut count = 0;
    for k in 0..n {
        if room[k * SLOT] == 0 || 1 < room[k * SLOT + PENDING] {
            return Front {
                slots: k,
                pending: count,
            };
        }
        count += pending_at(room, k * SLOT);
        make_live(room, k * SLOT);
    }
    Front {
        slots: n,
        pending: count,
    }
}

/// Makes every put live and takes every removal's record out, the later ones moving down; answers how many entries were pending.
pub fn release_room(room: &mut [u8]) -> usize
    ensures told { result ≡ pending_slots (used_slots room.old) }
    ensures left { room.new ≡ released_room room.old }
{
    let front = settle_front(room);
    let n = room.len() / SLOT;
    let mut to = front.slots * SLOT;
    let mut count = front.pending;
    for k in front.slots..n {
        if room[k * SLOT] == 0 {
            break;
        }
        count += pending_at(room, k * SLOT);
        to = settle(room, k * SLOT, to);
    }
    gaps::clear_from(room, to);
    count
}

fn all_permitted(text: &[u8]) -> bool
    ensures { result ≡ all permitted_of text.now }
{
    text.iter().all(|&byte| syntax::bytes::permitted(byte))
}

// Whether a text is a service number: 1 to 10 permitted characters.
fn is_number(text: &[u8]) -> bool
    ensures { result ≡ good_number text.now }
{
    if text.len() < 1 {
        return false;
    }
    if 10 < text.len() {
        return false;
    }
    all_permitted(text)
}

// A number as it stands in a slot.
fn filled_up(number: &[u8]) -> [u8; 10]
    requires { length number.now ≤ 10 }
    ensures { result ≡ filled_up 10 number.now }
{
    let mut filled = [0u8; 10];
    raw_bytes::put_bytes(&mut filled, 0, number);
    filled
}

// Drops the pending entry of the slot at an index, and the slot where nothing is live; says whether there was one.
fn withdraw_at(room: &mut [u8], at: usize) -> bool
    requires { at + 140 ≤ length room.old }
    ensures told { result ≡ withdraws_at room.old at }
    ensures left { room.new ≡ left_at room.old at }
{
    if room[at + PENDING] == 0 {
        return false;
    }
    if room[at + LIVE] == 0 {
        gaps::close_gap(room, at, SLOT);
        return true;
    }
    let nothing = [0u8; 65];
    raw_bytes::put_bytes(room, at + PENDING, &nothing);
    true
}

/// Drops the pending entry of a number, and its record where nothing is live; says whether there was one.
pub fn withdraw_number(room: &mut [u8], number: &[u8]) -> bool
    ensures told { result ≡ withdraws room.old (slot_found room.old number.now) }
    ensures left { room.new ≡ withdrawn_room room.old (slot_found room.old number.now) }
{
    if !is_number(number) {
        return false;
    }
    let filled = filled_up(number);
    match slots::find(room, &filled) {
        Ok(k) => withdraw_at(room, k * SLOT),
        Err(_) => false,
    }
}
