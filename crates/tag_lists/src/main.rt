//! Runs the tag lists of standard input through a table and prints where each segment is placed.
//! A line is a table (S for SKDUPD, T for TSDUPD, B for TSDUPD of D.12B, X for a made-up one), then tags; `RFR*000010` is ten RFR in a row.
//! The line is copied, and below it stands for each tag the group and the position of the last one, with a full stop
//! where the message may end there, or `out` and which one of them was out of place; the line is then left.

#![tactic(auto)]

use lines::{four_digits, letters, number, past, read_input, say, say_line, say_number};
use messages::{MessageType, UIH, UIT};
use placing::{POSITION, Place};
use segment_tables::{table_of, tsdupd_12b};
use std::io;

// A table in which a tag stands at several places, so that the order of the choices shows.
fn made_up() -> [[u32; 8]; 8] {
    [
        // UIH M 1
        [10, UIH, 1, 1, 0, 0, 0, 0],
        // Segment group 1 C 2
        [20, 0, 0, 2, 1, 0, 4, 0],
        // AAA M 1
        [30, 0x414141, 1, 1, 1, 1, 0, 1],
        // BBB C 2
        [40, 0x424242, 0, 2, 1, 1, 0, 1],
        // BBB C 1
        [50, 0x424242, 0, 1, 1, 1, 0, 1],
        // AAA C 1
        [60, 0x414141, 0, 1, 1, 1, 0, 1],
        // AAA C 1
        [70, 0x414141, 0, 1, 0, 0, 0, 0],
        // UIT M 1
        [80, UIT, 1, 1, 0, 0, 0, 0],
    ]
}

// How often a word's tag stands there: the number after a `*`, or once.
fn times(word: &[u8]) -> usize {
    let at = past(word, 0, b'*');
    if word.len() <= at {
        return 1;
    }
    number(word, at)
}

// A tag as the tables have it: its three bytes as one number.
fn tag_of(word: &[u8]) -> u32 {
    match word {
        [a, b, c, ..] => u32::from_be_bytes([0, *a, *b, *c]),
        _ => 0,
    }
}

// So many segments of one tag; which of them is out of place, if one is.
fn repeated(place: Place, table: &[[u32; 8]], tag: u32, times: usize) -> Result<Place, usize> {
    (1..=times).try_fold(place, |reached, k| reached.step(table, tag).ok_or(k))
}

// The position of a row, in the four digits of document 000; document 003 has a zero before them.
fn print_position(rt: &impl Print, table: &[[u32; 8]], row: usize) -> io::Result<()> {
    match table.get(row) {
        Some(columns) => say(rt, &four_digits(columns[POSITION])),
        None => Ok(()),
    }
}

fn print_place(rt: &impl Print, place: Place, table: &[[u32; 8]]) -> io::Result<()> {
    say(rt, b" ")?;
    say_number(rt, place.group(table) as usize)?;
    say(rt, b"/")?;
    let row = place.row;
    print_position(rt, table, row)?;
    if place.may_end(table) {
        say(rt, b".")?;
    }
    say(rt, b"\n")
}

fn run_tags(rt: &impl Print, line: &[u8], table: &[[u32; 8]]) -> io::Result<()> {
    let mut place = Place::start();
    for piece in line.split_inclusive(|&b| b == b' ').skip(1) {
        let word = piece.strip_suffix(b" ").unwrap_or(piece);
        let tag = tag_of(word);
        say(rt, &letters(tag))?;
        match repeated(place, table, tag, times(word)) {
            Ok(reached) => {
                print_place(rt, reached, table)?;
                place = reached;
            }
            Err(k) => {
                say(rt, b" out ")?;
                say_number(rt, k)?;
                return say(rt, b"\n");
            }
        }
    }
    Ok(())
}

fn run_line(
    rt: &impl Print,
    line: &[u8],
    tables: &[[u32; 8]],
    other: &[[u32; 8]],
) -> io::Result<()> {
    say_line(rt, line)?;
    match line.first() {
        Some(b'S') => run_tags(rt, line, table_of(tables, MessageType::Skdupd)),
        Some(b'T') => run_tags(rt, line, table_of(tables, MessageType::Tsdupd)),
        Some(b'B') => run_tags(rt, line, &tsdupd_12b()),
        Some(b'X') => run_tags(rt, line, other),
        _ => Ok(()),
    }
}

fn run_text(
    rt: &impl Print,
    text: &[u8],
    tables: &[[u32; 8]],
    other: &[[u32; 8]],
) -> io::Result<()> {
    for line in text.split_inclusive(|&b| b == b'\n') {
        run_line(rt, line.strip_suffix(b"\n").unwrap_or(line), tables, other)?;
    }
    Ok(())
}

fn main(rt: HostRuntime) -> io::Result<()> {
    let mut buffer = [0u8; 65536];
    let n = read_input(&mut rt.stdin(), &mut buffer)?;
    run_text(&rt, &buffer[..n], &segment_tables::tables(), &made_up())
}
