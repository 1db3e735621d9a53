//! Where an account's room lies in a register's bytes, and the laws of what is read and written there (document 01, "The register").

#![tactic(auto)]

ghost use Rattle.std.specs.Prelude.{◌≡◌};
ghost use Rattle.contents.specs.Written.{held};
ghost use Rattle.rooms.specs.Views.{room_start, room_end};

use raw_bytes::number_at;

const HEAD: usize = 18;

const SLOT: usize = 140;

const ACCOUNTS: usize = 8;

/// The number of the window's first date.
pub fn first_day(b: &[u8]) -> usize
    ensures { result ≡ (held b.now).first }
{
    number_at(b, 0)
}

/// Where an account's room begins, on any bytes. Accounts are counted from 1.
pub fn room_start(b: &[u8], account: usize) -> usize
    ensures { result ≡ room_start b.now account }
{
    if account == 0 {
        return room_end(b, 0);
    }
    room_end(b, account - 1)
}

/// Where an account's room ends, on any bytes: behind those of the accounts before it and its own.
pub fn room_end(b: &[u8], account: usize) -> usize
    ensures { result ≡ room_end b.now account }
{
    let mut at = HEAD;
    for k in 0..ACCOUNTS {
        if account <= k {
            return at;
        }
        at += number_at(b, 2 + k * 2) * SLOT;
    }
    at
}
