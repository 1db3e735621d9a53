//! Prints the segment tables in the layout of document 000: position, tag, status, number, group; document 003 has a zero before each position. Then holds them to the lines of the UN directory
//! on standard input, one for a message and one for each of its groups: `TSDUPD:D:04A:UN::SG5;SG05;RFR;M;1;MES;C;1;SG6;C;99`.
//! A line is copied, and below it stands each place that the table has and the line has not, and what of the line the table has not.

#![tactic(auto)]

ghost use Rattle.std.specs.Prelude.{IfSome, ◌<◌, length};

use lines::{four_digits, letters, number, past, piece_at, read_input, say, say_line, say_number};
use messages::MessageType;
use placing::{GROUP, HELD, MANDATORY, NUMBER, POSITION, TAG, entry};
use segment_tables::{table_of, tsdupd_12b};
use std::io;

// The three letters of a tag; document 000 has a dashed line where a group stands.
fn print_tag(rt: &impl Print, tag: u32) -> io::Result<()> {
    if tag == 0 {
        return say(rt, b"-----");
    }
    say(rt, &letters(tag))
}

fn status_letter(mandatory: u32) -> [u8; 1] {
    if mandatory == 0 { *b"C" } else { *b"M" }
}

fn print_count(rt: &impl Print, n: u32) -> io::Result<()> {
    say_number(rt, n as usize)
}

fn print_row(rt: &impl Print, row: [u32; 8]) -> io::Result<()> {
    say(rt, &four_digits(row[POSITION]))?;
    say(rt, b"\t")?;
    print_tag(rt, row[TAG])?;
    say(rt, b"\t")?;
    say(rt, &status_letter(row[MANDATORY]))?;
    say(rt, b"\t")?;
    print_count(rt, row[NUMBER])?;
    say(rt, b"\t")?;
    print_count(rt, row[GROUP])?;
    say(rt, b"\n")
}

fn print_table(rt: &impl Print, table: &[[u32; 8]]) -> io::Result<()> {
    for row in table {
        print_row(rt, *row)?;
    }
    Ok(())
}

fn is_tag(word: &[u8], tag: u32) -> bool {
    word == letters(tag).as_slice()
}

// A group is `SG` and its number.
fn is_group(word: &[u8], group: u32) -> bool {
    word.starts_with(b"SG") && number(word, 2) == group as usize
}

fn is_status(word: &[u8], mandatory: u32) -> bool {
    word == status_letter(mandatory).as_slice()
}

// Whether a line has the place of a row at an index: its tag or group, its status and its number.
fn is_place(row: [u32; 8], line: &[u8], at: usize) -> bool {
    let word = piece_at(line, at, b';');
    let is_named = if row[TAG] == 0 {
        is_group(word, row[GROUP])
    } else {
        is_tag(word, row[TAG])
    };
    let status_at = past(line, at, b';');
    is_named
        && is_status(piece_at(line, status_at, b';'), row[MANDATORY])
        && number(line, past(line, status_at, b';')) == row[NUMBER] as usize
}

fn past_place(line: &[u8], at: usize) -> usize {
    past(line, past(line, past(line, at, b';'), b';'), b';')
}

fn say_left(rt: &impl Print, line: &[u8], at: usize) -> io::Result<()> {
    if at < line.len() {
        say(rt, b"not here\t")?;
        say_line(rt, &line[at..])?;
    }
    Ok(())
}

// The places of a group, from one row up to another, held to those of a line.
fn hold_places(
    rt: &impl Print,
    table: &[[u32; 8]],
    from: usize,
    to: usize,
    line: &[u8],
) -> io::Result<()> {
    // The row moves past what a group holds, and the index by what was read, not by one.
    let mut row = from;
    let mut at = past(line, past(line, 0, b';'), b';');
    while row < to {
        if table.len() <= row {
            return Ok(());
        }
        if is_place(table[row], line, at) {
            at = past_place(line, at);
        } else {
            say(rt, b"not there\t")?;
            print_row(rt, table[row])?;
        }
        row = row + 1 + entry(table, row, HELD) as usize;
    }
    say_left(rt, line, at)
}

// The row of a group.
fn row_of(table: &[[u32; 8]], group: usize) -> Option<usize>
    ensures { IfSome result (λ row. row < length table.now) }
{
    table
        .iter()
        .position(|row| row[TAG] == 0 && row[GROUP] as usize == group)
}

// The second field of a line is `SG` and a group's number or, in the line of a whole message, its name, whose third character is no digit.
fn group_named(line: &[u8]) -> usize {
    number(piece_at(line, past(line, 0, b';'), b';'), 2)
}

fn hold_line(rt: &impl Print, table: &[[u32; 8]], line: &[u8]) -> io::Result<()> {
    let group = group_named(line);
    if group == 0 {
        return hold_places(rt, table, 0, table.len(), line);
    }
    match row_of(table, group) {
        Some(row) => hold_places(
            rt,
            table,
            row + 1,
            row + 1 + entry(table, row, HELD) as usize,
            line,
        ),
        None => say(rt, b"no such group\n"),
    }
}

// Whether a line is of release 04A, and not of 08A: the third part of its first field.
fn is_earlier(line: &[u8]) -> bool {
    let release = piece_at(line, past(line, past(line, 0, b':'), b':'), b':');
    matches!(release, [_, b'4', _])
}

// A line is copied and, where it is no remark, held to its table. The lines of TSDUPD end with D.08A; the table of D.12B is held to those.
fn run_line(rt: &impl Print, line: &[u8], tables: &[[u32; 8]]) -> io::Result<()> {
    say_line(rt, line)?;
    match line.first() {
        Some(b'S') => hold_line(rt, table_of(tables, MessageType::Skdupd), line),
        Some(b'T') if is_earlier(line) => {
            hold_line(rt, table_of(tables, MessageType::Tsdupd), line)
        }
        Some(b'T') => hold_line(rt, &tsdupd_12b(), line),
        _ => Ok(()),
    }
}

fn run_text(rt: &impl Print, text: &[u8], tables: &[[u32; 8]]) -> io::Result<()> {
    for line in text.split_inclusive(|&b| b == b'\n') {
        run_line(rt, line.strip_suffix(b"\n").unwrap_or(line), tables)?;
    }
    Ok(())
}

fn main(rt: HostRuntime) -> io::Result<()> {
    let mut buffer = [0u8; 65536];
    let n = read_input(&mut rt.stdin(), &mut buffer)?;
    let all = segment_tables::tables();
    say(&rt, b"SKDUPD\nPos\tTag\tS\tR\tGroup\n")?;
    print_table(&rt, table_of(&all, MessageType::Skdupd))?;
    say(&rt, b"TSDUPD\nPos\tTag\tS\tR\tGroup\n")?;
    print_table(&rt, table_of(&all, MessageType::Tsdupd))?;
    say(&rt, b"TSDUPD, D.12B\nPos\tTag\tS\tR\tGroup\n")?;
    print_table(&rt, &tsdupd_12b())?;
    run_text(&rt, &buffer[..n], &all)
}
