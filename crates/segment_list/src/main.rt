//! Walks inputs, a line each, from segment to segment with the reader over the lent interchange. Writes each segment's
//! offset and tag, and how the walk ends: over at an offset, or refused with number, position and part.

#![tactic(auto)]

use lent::found_past;
use lines::{letters, read_input, say, say_line, say_number, say_refusal};
use std::io;

fn answer_segment(rt: &impl Print, at: usize, tag: u32) -> io::Result<()> {
    say_number(rt, at)?;
    say(rt, b" ")?;
    say_line(rt, &letters(tag))
}

fn answer_over(rt: &impl Print, at: usize) -> io::Result<()> {
    say(rt, b"over ")?;
    say_number(rt, at)?;
    say(rt, b"\n")
}

// A segment has at least four bytes, so the walk ends within a quarter as many passes as the line has bytes.
fn walk(rt: &impl Print, line: &[u8]) -> io::Result<()> {
    let mut at = 0;
    for n in 0..line.len() / 4 + 1 {
        match found_past(line, n) {
            Ok(Some(segment)) => {
                answer_segment(rt, at, segment.tag)?;
                at = segment.after;
            }
            Ok(None) => {
                return answer_over(rt, at);
            }
            Err(refusal) => {
                return say_refusal(rt, refusal.number, refusal.position, refusal.part);
            }
        }
    }
    Ok(())
}

fn answer_all(rt: &impl Print, text: &[u8]) -> io::Result<()> {
    for line in text.split_inclusive(|&b| b == b'\n') {
        walk(rt, line.strip_suffix(b"\n").unwrap_or(line))?;
    }
    Ok(())
}

fn main(rt: HostRuntime) -> io::Result<()> {
    let mut buffer = [0u8; 60000];
    let n = read_input(&mut rt.stdin(), &mut buffer)?;
    answer_all(&rt, &buffer[..n])
}
