//! Reads commands on a register, a line each, and runs them on one store of 35,860 bytes, zeros at first, of which the first 35,858 are
//! lent as the register. Fields are parted by tabs; in an interchange and a number `~` and two hexadecimal digits stand for a byte.
//!
//! `open` year month day and eight quotas; `stage` account interchange; `flat` account n, which stages n bytes `A`; `release` account;
//! `withdraw` account number; `print` account k room, which shows; `is` answers 1 for a register. `byte` offset value sets a byte of the
//! store; `noise` seed from to fills a part of it; `lend` n lends the first n bytes from now on; `given` account interchange stages without asking for the
//! old reading of a POP with neither form, which `stage` asks for. A line that begins with `#` is copied.
//!
//! A command writes a line: number, position, part, value and a digest of the whole store. A show adds a digest of its whole
//! output buffer, and what was written below the line.

#![tactic(auto)]

use checking::is_register;
use dates::Date;
use lines::{decode, field, piece_at, read_input, say, say_line, say_number};
use parts::{Part, bytes_of};
use register::{AccountError, OpenError, ShowError, WithdrawError};
use shown::LinesError;
use staging::StageError;
use std::io;

// What a command comes to, in document 01's numbers.
#[derive(Clone, Copy)]
struct Told {
    number: usize,
    position: usize,
    part: usize,
    value: usize,
}

fn done(value: usize) -> Told {
    Told {
        number: 0,
        position: 0,
        part: 0,
        value,
    }
}

fn refused(number: usize) -> Told {
    Told {
        number,
        position: 0,
        part: 0,
        value: 0,
    }
}

// ---- reading a line

// The number that the field k says.
fn number(line: &[u8], k: usize) -> usize {
    lines::number(line, field(line, k))
}

fn small(n: usize) -> u8 {
    (n % 256) as u8
}

fn put(out: &mut [u8], at: usize, b: u8) {
    if at < out.len() {
        out[at] = b;
    }
}

// What the field k says, over the front of the bytes lent; how many bytes it has.
fn expand(line: &[u8], k: usize, out: &mut [u8]) -> usize {
    decode(piece_at(line, field(line, k), b'\t'), out)
}

// ---- the calls

fn quotas(line: &[u8]) -> [u32; 8] {
    let mut found = [0u32; 8];
    for k in 0..8 {
        found[k] = (number(line, 4 + k) % 4294967296) as u32;
    }
    found
}

fn first_date(line: &[u8]) -> Date {
    Date {
        year: (number(line, 1) % 65536) as u16,
        month: small(number(line, 2)),
        day: small(number(line, 3)),
    }
}

fn open(b: &mut [u8], line: &[u8]) -> Told {
    match register::open(b, first_date(line), quotas(line)) {
        Ok(()) => done(0),
        Err(OpenError::WrongLength) => refused(1),
        Err(OpenError::BadOpening) => refused(18),
    }
}

fn told_staged(staged: Result<usize, StageError>) -> Told {
    match staged {
        Ok(n) => done(n),
        Err(StageError::NotRegister) => refused(1),
        Err(StageError::NoAccount) => refused(2),
        Err(StageError::Refused(refusal)) => Told {
            number: refusal.number as usize,
            position: refusal.position,
            part: refusal.part as usize,
            value: 0,
        },
    }
}

fn stage(b: &mut [u8], line: &[u8], wish: bool) -> Told {
    let mut interchange = [0u8; 60001];
    let n = expand(line, 2, &mut interchange);
    told_staged(staging::stage(
        b,
        number(line, 1),
        bytes_of(&interchange, Part { from: 0, to: n }),
        wish,
    ))
}

fn stage_flat(b: &mut [u8], line: &[u8]) -> Told {
    let interchange = [b'A'; 60001];
    let n = number(line, 2);
    told_staged(staging::stage(
        b,
        number(line, 1),
        bytes_of(&interchange, Part { from: 0, to: n }),
        true,
    ))
}

fn no_account(reason: AccountError) -> Told {
    match reason {
        AccountError::NotRegister => refused(1),
        AccountError::BadAccount => refused(2),
    }
}

fn release(b: &mut [u8], line: &[u8]) -> Told {
    match register::release(b, number(line, 1)) {
        Ok(n) => done(n),
        Err(reason) => no_account(reason),
    }
}

fn withdraw(b: &mut [u8], line: &[u8]) -> Told {
    let mut text = [0u8; 20];
    let n = expand(line, 2, &mut text);
    match register::withdraw(b, number(line, 1), bytes_of(&text, Part { from: 0, to: n })) {
        Ok(()) => done(0),
        Err(WithdrawError::Account(reason)) => no_account(reason),
        Err(WithdrawError::NothingPending) => refused(16),
    }
}

fn show(b: &[u8], account: usize, k: usize, out: &mut [u8]) -> Told {
    match register::show(b, account, k, out) {
        Ok(n) => done(n),
        Err(ShowError::Account(reason)) => no_account(reason),
        Err(ShowError::Lines(LinesError::NoRecord)) => refused(16),
        Err(ShowError::Lines(LinesError::TooShort)) => refused(17),
    }
}

// ---- the store

fn one_more(digest: usize, b: u8) -> usize {
    (digest % 4294967291 * 65599 + b as usize + 1) % 4294967291
}

fn digest(bytes: &[u8]) -> usize {
    let mut d = 0;
    for &b in bytes {
        d = one_more(d, b);
    }
    d
}

fn next_noise(seed: usize) -> usize {
    (seed % 4294967296 * 1103515245 + 12345) % 4294967296
}

fn fill_noise(store: &mut [u8], line: &[u8]) {
    let to = number(line, 3);
    let mut seed = number(line, 1);
    for i in number(line, 2)..to.min(store.len()) {
        seed = next_noise(seed);
        store[i] = small(seed / 65536);
    }
}

// ---- what is written

fn print_told(rt: &impl Print, told: Told, store: &[u8]) -> io::Result<()> {
    say_number(rt, told.number)?;
    say(rt, b"\t")?;
    say_number(rt, told.position)?;
    say(rt, b"\t")?;
    say_number(rt, told.part)?;
    say(rt, b"\t")?;
    say_number(rt, told.value)?;
    say(rt, b"\t")?;
    say_number(rt, digest(store))
}

fn show_part(b: &[u8], line: &[u8], out: &mut [u8]) -> Told {
    let room = number(line, 3);
    if out.len() < room {
        return done(0);
    }
    show(b, number(line, 1), number(line, 2), &mut out[..room])
}

fn answer_show(rt: &impl Print, store: &[u8], lent: usize, line: &[u8]) -> io::Result<()> {
    let mut out = [b'.'; 2000];
    let told = show_part(bytes_of(store, Part { from: 0, to: lent }), line, &mut out);
    let n = told.value;
    print_told(rt, told, store)?;
    say(rt, b"\t")?;
    say_number(rt, digest(&out))?;
    say(rt, b"\n")?;
    say(rt, bytes_of(&out, Part { from: 0, to: n }))
}

fn call(b: &mut [u8], line: &[u8]) -> Told {
    match line.first() {
        Some(b'o') => open(b, line),
        Some(b's') => stage(b, line, true),
        Some(b'g') => stage(b, line, false),
        Some(b'f') => stage_flat(b, line),
        Some(b'r') => release(b, line),
        Some(b'w') => withdraw(b, line),
        _ => {
            if is_register(b) {
                return done(1);
            }
            done(0)
        }
    }
}

fn call_lent(store: &mut [u8], lent: usize, line: &[u8]) -> Told {
    if store.len() < lent {
        return done(0);
    }
    call(&mut store[..lent], line)
}

fn answer_call(rt: &impl Print, store: &mut [u8], lent: usize, line: &[u8]) -> io::Result<()> {
    let told = call_lent(store, lent, line);
    print_told(rt, told, store)?;
    say(rt, b"\n")
}

// Runs a command; how many bytes are lent from then on.
fn answer_command(
    rt: &impl Print,
    store: &mut [u8],
    lent: usize,
    line: &[u8],
) -> io::Result<usize> {
    match line.first() {
        Some(b'#') => {
            say_line(rt, line)?;
            return Ok(lent);
        }
        Some(b'p') => {
            answer_show(rt, store, lent, line)?;
            return Ok(lent);
        }
        Some(b'b') => put(store, number(line, 1), small(number(line, 2))),
        Some(b'n') => fill_noise(store, line),
        Some(b'l') => {
            return Ok(number(line, 1));
        }
        _ => answer_call(rt, store, lent, line)?,
    }
    Ok(lent)
}

fn answer_all(rt: &impl Print, text: &[u8], store: &mut [u8]) -> io::Result<()> {
    let mut lent = 35858;
    for line in text.split_inclusive(|&b| b == b'\n') {
        lent = answer_command(rt, store, lent, line.strip_suffix(b"\n").unwrap_or(line))?;
    }
    Ok(())
}

fn main(rt: HostRuntime) -> io::Result<()> {
    let mut store = [0u8; 35860];
    let mut buffer = [0u8; 120000];
    let n = read_input(&mut rt.stdin(), &mut buffer)?;
    answer_all(&rt, &buffer[..n], &mut store)
}
