//! Reads cases for the syntax floor, a line each, and writes an answer to each:
//! `segment` AT TEXT, `part` E O C TEXT, `repeated` E TEXT, `equal` TEXT TEXT, parted by tabs.
//! In a text `~` and two hexadecimal digits stand for a byte.

#![tactic(auto)]

use lines::{decode, field, number, piece_at, read_input, say, say_line, say_number, say_refusal};
use parts::{Part, bytes_of, is_repeated, part_at};
use std::io;
use syntax::segment::read_segment;
use values::{plain_length, same};

#[derive(Clone, Copy)]
struct Text {
    bytes: [u8; 2048],
    length: usize,
}

// What the field k of a line says.
fn read_text(line: &[u8], k: usize) -> Text {
    let mut bytes = [0u8; 2048];
    let length = decode(piece_at(line, field(line, k), b'\t'), &mut bytes);
    Text { bytes, length }
}

// The number that the field k of a line says.
fn read_number(line: &[u8], k: usize) -> usize {
    number(line, field(line, k))
}

fn answer(rt: &impl Print, yes: bool) -> io::Result<()> {
    if yes {
        say_line(rt, b"yes")
    } else {
        say_line(rt, b"no")
    }
}

fn answer_segment(rt: &impl Print, t: Text, at: usize) -> io::Result<()> {
    let bytes = t.bytes;
    let to = t.length;
    let s: &[u8] = &bytes;
    match read_segment(bytes_of(s, Part { from: 0, to }), at) {
        Ok(end) => {
            say(rt, b"end ")?;
            say_number(rt, end)?;
            say(rt, b"\n")
        }
        Err(error) => {
            let refusal = error.refusal(at);
            say_refusal(rt, refusal.number, refusal.position, refusal.part)
        }
    }
}

fn answer_part(rt: &impl Print, t: Text, e: usize, o: usize, c: usize) -> io::Result<()> {
    let bytes = t.bytes;
    let to = t.length;
    let s: &[u8] = &bytes;
    let part = part_at(s, Part { from: 0, to }, e, o, c);
    if part.is_absent() {
        return say_line(rt, b"absent");
    }
    say_number(rt, part.from)?;
    say(rt, b" ")?;
    say_number(rt, part.to)?;
    say(rt, b" ")?;
    say_number(rt, plain_length(bytes_of(s, part)))?;
    say(rt, b"\n")
}

fn answer_repeated(rt: &impl Print, t: Text, e: usize) -> io::Result<()> {
    let bytes = t.bytes;
    let to = t.length;
    let s: &[u8] = &bytes;
    answer(rt, is_repeated(s, Part { from: 0, to }, e))
}

fn answer_same(rt: &impl Print, t: Text, u: Text) -> io::Result<()> {
    let a = t.bytes;
    let b = u.bytes;
    let first: &[u8] = &a;
    let second: &[u8] = &b;
    let one = bytes_of(
        first,
        Part {
            from: 0,
            to: t.length,
        },
    );
    let other = bytes_of(
        second,
        Part {
            from: 0,
            to: u.length,
        },
    );
    answer(rt, same(one, other))
}

fn answer_case(rt: &impl Print, line: &[u8]) -> io::Result<()> {
    if line.len() == 0 {
        return Ok(());
    }
    let kind = line[0];
    if kind == b's' {
        return answer_segment(rt, read_text(line, 2), read_number(line, 1));
    }
    if kind == b'p' {
        let e = read_number(line, 1);
        let o = read_number(line, 2);
        let c = read_number(line, 3);
        return answer_part(rt, read_text(line, 4), e, o, c);
    }
    if kind == b'r' {
        return answer_repeated(rt, read_text(line, 2), read_number(line, 1));
    }
    answer_same(rt, read_text(line, 1), read_text(line, 2))
}

fn answer_all(rt: &impl Print, text: &[u8]) -> io::Result<()> {
    for line in text.split(|&b| b == b'\n') {
        answer_case(rt, line)?;
    }
    Ok(())
}

fn main(rt: HostRuntime) -> io::Result<()> {
    let mut buffer = [0u8; 60000];
    let n = read_input(&mut rt.stdin(), &mut buffer)?;
    answer_all(&rt, &buffer[..n])
}
