//! Reads an interchange from standard input as it comes, each read a parcel, and prints its rows parcel by parcel, then the refusal if
//! there is one (document 01, "Printed whole"; document 02, A1). Of an accepted interchange it prints what `print` prints.

#![tactic(auto)]

use answers::{Reason, Refusal};
use lines::say;
use parcel_store::STORE;
use parcels::{begin, finish, take};
use parts::{Part, bytes_of};
use std::io;
use std::io::Read;
use text::{write_refusal, write_table};

// A text from an index on, in one write; whether there was room for it.
fn print(rt: &impl Print, out: &[u8], from: usize, written: Option<usize>) -> io::Result<bool> {
    match written {
        Some(to) => {
            say(rt, bytes_of(out, Part { from, to }))?;
            Ok(true)
        }
        None => Ok(false),
    }
}

fn print_refusal(rt: &impl Print, refusal: Refusal) -> io::Result<()> {
    let mut line = [0u8; 72];
    let written = write_refusal(refusal, &mut line);
    print(rt, &line, 0, written)?;
    Ok(())
}

// The rows that a parcel brought, without the heading; whether there was room for their text. There is: 4,096 bytes and 4,096 held ones
// end 2,048 segments at most, whose rows have 13 bytes each at most.
fn print_rows(rt: &impl Print, rows: &[u32], n: usize) -> io::Result<bool> {
    if n == 0 {
        return Ok(true);
    }
    let mut out = [0u8; 26641];
    let written = write_table(rows, n, &mut out);
    if print(rt, &out, 17, written)? {
        return Ok(true);
    }
    print_refusal(rt, Reason::OutputTooShort.at(0))?;
    Ok(false)
}

fn print_last(rt: &impl Print, rows: &[u32], n: usize, refusal: Refusal) -> io::Result<()> {
    if print_rows(rt, rows, n)? {
        print_refusal(rt, refusal)?;
    }
    Ok(())
}

// Whether the reading goes on after a parcel.
fn print_parcel(rt: &impl Print, store: &mut [u8], parcel: &[u8]) -> io::Result<bool> {
    let mut rows = [0u32; 6144];
    match take(store, parcel, &mut rows) {
        Ok(n) => print_rows(rt, &rows, n),
        Err(fault) => {
            print_last(rt, &rows, fault.rows, fault.refusal)?;
            Ok(false)
        }
    }
}

fn print_end(rt: &impl Print, store: &mut [u8]) -> io::Result<()> {
    match finish(store) {
        Ok(_) => Ok(()),
        Err(refusal) => print_refusal(rt, refusal),
    }
}

// One read; whether another is to follow. A read of no bytes is the end.
fn read_parcel(rt: &impl Print, from: &mut impl Read, store: &mut [u8]) -> io::Result<bool> {
    let mut buffer = [0u8; 4096];
    let n = from.read(&mut buffer)?;
    if n == 0 {
        print_end(rt, store)?;
        return Ok(false);
    }
    print_parcel(rt, store, &buffer[..n])
}

// A parcel has a byte at least, and with byte 60,001 the final answer is there.
fn read_all(rt: &impl Print, from: &mut impl Read, store: &mut [u8]) -> io::Result<()> {
    for _ in 0..60001 {
        if !read_parcel(rt, from, store)? {
            return Ok(());
        }
    }
    Ok(())
}

fn main(rt: HostRuntime) -> io::Result<()> {
    say(&rt, b"offset\tgroup\ttag\n")?;
    let mut store = [0u8; STORE];
    // The store is as long as it has to be, so that nothing is refused.
    let _ = begin(&mut store, true);
    read_all(&rt, &mut rt.stdin(), &mut store)
}
