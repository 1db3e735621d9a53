//! Reads an interchange from standard input and prints its rows, or the refusal (document 01, "Printed whole").
//! The text is gathered and written at once. The program asks for the old reading of a POP with neither form (document 02, A2).

#![tactic(auto)]

use answers::Refusal;
use interchange::reader::read;
use lines::{read_input, say};
use parts::{Part, bytes_of};
use std::io;
use text::{write_refusal, write_table};

fn print(rt: &impl Print, out: &[u8], n: usize) -> io::Result<()> {
    say(rt, bytes_of(out, Part { from: 0, to: n }))
}

// 15,000 rows of at most 13 bytes and a heading fit.
fn print_rows(rt: &impl Print, rows: &[u32], n: usize) -> io::Result<()> {
    let mut out = [0u8; 250000];
    match write_table(rows, n, &mut out) {
        Some(k) => print(rt, &out, k),
        None => Ok(()),
    }
}

fn print_refusal(rt: &impl Print, refusal: Refusal) -> io::Result<()> {
    let mut out = [0u8; 72];
    match write_refusal(refusal, &mut out) {
        Some(k) => print(rt, &out, k),
        None => Ok(()),
    }
}

fn main(rt: HostRuntime) -> io::Result<()> {
    let mut input = [0u8; 60001];
    let n = read_input(&mut rt.stdin(), &mut input)?;
    let mut rows = [0u32; 45000];
    match read(&input[..n], true, &mut rows) {
        Ok(k) => print_rows(&rt, &rows, k),
        Err(refusal) => print_refusal(&rt, refusal),
    }
}
