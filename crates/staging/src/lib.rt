//! Staging an interchange: its services enter an account's pending entries, all of them or none (document 01, "The register").

#![tactic(auto)]

ghost use Rattle.std.specs.Prelude.{◌≡◌, Bool, true, ◌*◌, ◌≤◌, length};
ghost use Rattle.contents.specs.Written.{is_register};
ghost use Rattle.contents.specs.Calls.{is_account, answer_on, bytes_after};
ghost use Rattle.services.specs.Services.{services_of, counted_answer};
ghost use Rattle.stages.specs.Stage.{stage_of};
ghost use Rattle.service_entries.specs.Room.{removes_in};
ghost use Rattle.staging.specs.declared.StageError.TheVariants.{Refused};
ghost use Rattle.staging.specs.Few.{Rows};
ghost use Rattle.staging.specs.Room.{staged_answer, room_tests, room_fits, room_answer, room_after};

use answers::{Reason, Refusal};
use checking::is_register;
use interchange::reader::read;
use rooms::{first_day, room_end, room_start};
use service_entries::{put_all, put_orders, remove_all};
use service_tests::{Totals, test_all};

const SLOT: usize = 140;

// How many orders are kept: as many as a register has slots, so that none is missing where the services fit.
const ORDERS: usize = 256;

/// Why no service of an interchange entered.
#[derive(Clone, Copy, PartialEq, Eq, Debug)]
pub enum StageError {
    /// The buffer is not a register.
    NotRegister,
    /// The account is not 1 to 8.
    NoAccount,
    /// What the reader or a service's test refuses, or the quota.
    Refused(Refusal),
}

impl From<Refusal> for StageError {
    ghost from_gives = { λ refusal error. error ≡ Refused refusal };

    fn from(refusal: Refusal) -> StageError {
        StageError::Refused(refusal)
    }
}

// 15: whether a room holds the records that the services leave in the end.
fn fits(room: &[u8], totals: Totals) -> bool
    ensures { result ≡ room_fits room.now totals }
{
    let added = totals.added;
    let dropped = totals.dropped;
    if added <= dropped {
        return true;
    }
    let free = room.len() / SLOT - slots::used(room);
    added - dropped <= free
}

// All removals, where there are any.
fn remove_any(room: &mut [u8], s: &[u8], rows: &[u32], n: usize, removals: usize)
    requires { removals ≡ 0 → removes_in s.now (services_of s.now rows.now n) room.old ≡ room.old }
    ensures { room.new ≡ removes_in s.now (services_of s.now rows.now n) room.old }
{
    if removals == 0 {
        return;
    }
    remove_all(room, s, rows, n);
}

// Stages the services of n rows in an account's room: all tests first, then all removals, then all puts, so that the room never holds
// more than it does in the end.
fn stage_room(
    room: &mut [u8],
    first: usize,
    s: &[u8],
    rows: &[u32],
    n: usize,
) -> Result<usize, Refusal>
    ensures told { counted_answer result ≡ room_answer room.old s.now (room_tests room.old first s.now rows.now n) }
    ensures left { room.new ≡ room_after room.old first s.now rows.now n (room_tests room.old first s.now rows.now n) }
{
    let mut orders = [0u8; 19200];
    let totals = test_all(&mut orders, room, first, s, rows, n)?;
    if !fits(room, totals) {
        return Err(Reason::OverQuota.at(s.len()));
    }
    remove_any(room, s, rows, n, totals.removals);
    if ORDERS < totals.services {
        put_all(room, first, s, rows, n);
    } else {
        put_orders(room, &orders, totals.services);
    }
    Ok(totals.services)
}

// The same in a register, where the buffer begins with the n rows of an interchange that is accepted, whatever the wish.
fn stage_rows(
    b: &mut [u8],
    account: usize,
    s: &[u8],
    rows: &[u32],
    n: usize,
) -> Result<usize, Refusal>
    requires { (is_register b.old ≡ true) × (is_account account ≡ true) × (length rows.now ≡ 45000) × (3 * n ≤ 45000) }
    ensures told { (wish : Bool) → Rows wish s.now n rows.now → counted_answer result ≡ answer_on b.old account (λ v. (stage_of wish s.now v).answer) }
    ensures left { (wish : Bool) → Rows wish s.now n rows.now → b.new ≡ bytes_after b.old account (λ v. (stage_of wish s.now v).records) }
{
    let first = first_day(b);
    let from = room_start(b, account);
    let to = room_end(b, account);
    let end = 3 * n;
    stage_room(&mut b[from..to], first, s, &rows[..end], n)
}

// Reads the interchange, then stages it. 45,000 numbers hold the rows of 60,000 bytes, since a segment takes four.
fn stage_read(b: &mut [u8], account: usize, s: &[u8], wish: bool) -> Result<usize, Refusal>
    requires { (is_register b.old ≡ true) × (is_account account ≡ true) }
    ensures told { counted_answer result ≡ answer_on b.old account (λ v. (stage_of wish s.now v).answer) }
    ensures left { b.new ≡ bytes_after b.old account (λ v. (stage_of wish s.now v).records) }
{
    let mut rows = [0u32; 45000];
    let n = read(s, wish, &mut rows)?;
    stage_rows(b, account, s, &rows, n)
}

/// Stages an interchange in an account of a register: all its services enter as pending, and it tells how many they are; or none, and then nothing changes. The wish is whether the
/// caller asks for the old reading of a POP with neither form.
pub fn stage(
    b: &mut [u8],
    account: usize,
    interchange: &[u8],
    wish: bool,
) -> Result<usize, StageError>
    ensures told { staged_answer result ≡ answer_on b.old account (λ v. (stage_of wish interchange.now v).answer) }
    ensures left { b.new ≡ bytes_after b.old account (λ v. (stage_of wish interchange.now v).records) }
{
    if !is_register(b) {
        return Err(StageError::NotRegister);
    }
    if account < 1 {
        return Err(StageError::NoAccount);
    }
    if 8 < account {
        return Err(StageError::NoAccount);
    }
    Ok(stage_read(b, account, interchange, wish)?)
}
