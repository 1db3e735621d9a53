//! Reading an interchange in parcels, for C. The reading is kept in a store that the caller lends.

ghost use Rattle.std.specs.Prelude.{◌≡◌, length};
ghost use Rattle.parcels.specs.Calls.{parcel_told, begin_told, begin_store, take_told, take_store, take_rows, finish_answer, finish_store};
ghost use Rattle.desk.specs.Desk.{reply_of, told_reply};

use crate::{Reply, done, told};
use parcels::Fault;

// The reply of a call that may have written rows before it refuses.
fn taken(parcel: Result<usize, Fault>) -> Reply
    ensures { result ≡ told_reply (parcel_told parcel) }
{
    match parcel {
        Ok(n) => done(n),
        Err(fault) => Reply {
            number: fault.refusal.number,
            position: fault.refusal.position,
            part: fault.refusal.part,
            value: fault.rows,
        },
    }
}

/// The store holds a reading before its first byte; the wish is whether the caller asks for the old reading of a POP with neither form in what follows.
#[unsafe(no_mangle)]
pub extern "C" fn drumcallisto_begin(store: &mut [u8], wish: bool) -> Reply
    ensures told { result ≡ told_reply (begin_told store.old) }
    ensures left { store.new ≡ begin_store wish store.old }
{
    taken(parcels::begin(store, wish))
}

/// Reads the next parcel and writes the rows of the segments that end in it to the front of a lent buffer; a fault is named after the rows before it.
#[unsafe(no_mangle)]
pub extern "C" fn drumcallisto_take(store: &mut [u8], parcel: &[u8], rows: &mut [u32]) -> Reply
    ensures told { result ≡ told_reply (take_told store.old parcel.now (length rows.old)) }
    ensures left { store.new ≡ take_store store.old parcel.now (length rows.old) }
    ensures out { rows.new ≡ take_rows store.old parcel.now rows.old }
{
    taken(parcels::take(store, parcel, rows))
}

/// The input is over: how many rows there were, or what is wrong.
#[unsafe(no_mangle)]
pub extern "C" fn drumcallisto_finish(store: &mut [u8]) -> Reply
    ensures told { result ≡ reply_of (finish_answer store.old) }
    ensures left { store.new ≡ finish_store store.old }
{
    told(parcels::finish(store))
}
