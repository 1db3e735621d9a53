//! Reads cases, a line each, and writes for each the text that the printing program prints.
//! A line is how many numbers the row buffer holds, a tab, and an interchange. In it `~` and two hexadecimal digits stand
//! for a byte, and `{3|text}` for a text three times. A line that begins with `#` is copied. `ask`, a tab and 0 or 1: whether the lines below
//! ask for the old reading of a POP with neither form; those before the first such line do.
//! A table of more than 1,000 bytes is told by `long`, its rows, its bytes, and the remainder by 65,521 of the number that
//! its bytes are.

#![tactic(auto)]

ghost use Rattle.std.specs.Prelude.{◌<◌, length};

use answers::Refusal;
use interchange::reader::read;
use lines::{number, past, read_input, say, say_line, say_number, sign_at};
use parts::{Part, bytes_of};
use std::io;
use text::{write_refusal, write_table};

// Where the notation goes on past the sign at an index.
fn after(line: &[u8], i: usize) -> usize
    requires { i < length line.now }
    ensures { i < result }
{
    if line[i] == b'{' {
        return past(line, i, b'|');
    }
    match sign_at(line, i) {
        Some(sign) => sign.next,
        None => i + 1,
    }
}

fn put(out: &mut [u8], at: usize, b: u8) -> usize {
    if out.len() <= at {
        return at;
    }
    out[at] = b;
    at + 1
}

// The bytes from an index to another, once more at a third; where they end.
fn copy(out: &mut [u8], from: usize, to: usize, at: usize) -> usize {
    let mut n = at;
    for i in from..to.min(out.len()) {
        let b = out[i];
        n = put(out, n, b);
    }
    n
}

// The bytes from an index to another, as often as a number says; where they end.
fn repeat(out: &mut [u8], from: usize, to: usize, times: usize) -> usize {
    let mut n = to;
    for _ in 1..times {
        n = copy(out, from, to, n);
    }
    n
}

// How many bytes a notation has said, where the text that is repeated begins, and how often it stands.
#[derive(Clone, Copy)]
struct Said {
    bytes: usize,
    start: usize,
    times: usize,
}

fn take(line: &[u8], i: usize, said: Said, out: &mut [u8]) -> Said
    requires { i < length line.now }
{
    let n = said.bytes;
    if line[i] == b'{' {
        return Said {
            bytes: n,
            start: n,
            times: number(line, i + 1),
        };
    }
    if line[i] == b'}' {
        return Said {
            bytes: repeat(out, said.start, n, said.times),
            start: n,
            times: 0,
        };
    }
    let bytes = match sign_at(line, i) {
        Some(sign) => put(out, n, sign.byte),
        None => n,
    };
    Said {
        bytes,
        start: said.start,
        times: said.times,
    }
}

// What the notation from an index on says, over the front of the bytes lent; how many bytes it has.
fn expand(line: &[u8], from: usize, out: &mut [u8]) -> usize {
    let mut said = Said {
        bytes: 0,
        start: 0,
        times: 0,
    };
    let mut i = from;
    // The index moves past what was read, not by one.
    while i < line.len() {
        said = take(line, i, said, out);
        i = after(line, i);
    }
    said.bytes
}

fn one_more(r: usize, b: u8) -> usize {
    (r % 65521 * 256 + b as usize) % 65521
}

fn remainder(text: &[u8]) -> usize {
    let mut r = 0;
    for &b in text {
        r = one_more(r, b);
    }
    r
}

fn print_table(rt: &impl Print, text: &[u8], rows: usize) -> io::Result<()> {
    if text.len() <= 1000 {
        return say(rt, text);
    }
    say(rt, b"long\t")?;
    say_number(rt, rows)?;
    say(rt, b"\t")?;
    say_number(rt, text.len())?;
    say(rt, b"\t")?;
    say_number(rt, remainder(text))?;
    say(rt, b"\n")
}

fn answer_rows(rt: &impl Print, rows: &[u32], n: usize) -> io::Result<()> {
    let mut out = [0u8; 250000];
    match write_table(rows, n, &mut out) {
        Some(k) => print_table(rt, bytes_of(&out, Part { from: 0, to: k }), n),
        None => say(rt, b"no room\n"),
    }
}

fn answer_refusal(rt: &impl Print, refusal: Refusal) -> io::Result<()> {
    let mut out = [0u8; 72];
    match write_refusal(refusal, &mut out) {
        Some(k) => say(rt, bytes_of(&out, Part { from: 0, to: k })),
        None => say(rt, b"no room\n"),
    }
}

fn answer_case(
    rt: &impl Print,
    interchange: &[u8],
    wish: bool,
    rows: &mut [u32],
) -> io::Result<()> {
    match read(interchange, wish, rows) {
        Ok(n) => answer_rows(rt, rows, n),
        Err(refusal) => answer_refusal(rt, refusal),
    }
}

fn answer_in(
    rt: &impl Print,
    interchange: &[u8],
    wish: bool,
    rows: &mut [u32],
    room: usize,
) -> io::Result<()> {
    if rows.len() < room {
        return Ok(());
    }
    let from = rows.len() - room;
    answer_case(rt, interchange, wish, &mut rows[from..])
}

// Whether the lines below ask.
fn answer_line(rt: &impl Print, line: &[u8], wish: bool) -> io::Result<bool> {
    match line.first() {
        None => return Ok(wish),
        Some(b'#') => {
            say_line(rt, line)?;
            return Ok(wish);
        }
        Some(b'a') => return Ok(number(line, past(line, 0, b'\t')) == 1),
        Some(_) => {}
    }
    let mut interchange = [0u8; 60001];
    let n = expand(line, past(line, 0, b'\t'), &mut interchange);
    let mut rows = [0u32; 45000];
    answer_in(
        rt,
        bytes_of(&interchange, Part { from: 0, to: n }),
        wish,
        &mut rows,
        number(line, 0),
    )?;
    Ok(wish)
}

fn answer_all(rt: &impl Print, text: &[u8]) -> io::Result<()> {
    let mut wish = true;
    for line in text.split(|&b| b == b'\n') {
        wish = answer_line(rt, line, wish)?;
    }
    Ok(())
}

fn main(rt: HostRuntime) -> io::Result<()> {
    let mut buffer = [0u8; 131072];
    let n = read_input(&mut rt.stdin(), &mut buffer)?;
    answer_all(&rt, &buffer[..n])?;
    // The largest numbers that are printed; and rows that the buffer does not hold are none.
    answer_refusal(
        &rt,
        Refusal {
            number: 255,
            position: 18446744073709551615,
            part: 255,
        },
    )?;
    answer_rows(&rt, &[55, 0, 0x55495A, 63], 15000)
}
