#![tactic(auto)]

// Writes each calendar of standard input in its three forms. A line has two dates, parted by a slash, a space and the days as characters.
// What it must write was made by another implementation, with Python's datetime.
ghost use Rattle.std.specs.Prelude.{◌≤◌};

use calendar::WriteError;
use dates::Date;
use lines::{number, read_input, say, say_line, say_number};
use std::io;

// The date as it is written, whether it is one or not.
fn date(line: &[u8], at: usize) -> Date
    requires { at ≤ 100 }
{
    Date {
        year: (number(line, at) % 65536) as u16,
        month: (number(line, at + 5) % 256) as u8,
        day: (number(line, at + 8) % 256) as u8,
    }
}

fn mark(days: &mut [u8], k: usize, byte: u8) {
    if byte != b'1' {
        return;
    }
    calendar::set_day(days, k);
}

fn mark_all(days: &mut [u8], line: &[u8]) {
    for (k, byte) in line.iter().skip(22).enumerate() {
        mark(days, k, *byte);
    }
}

fn refused(rt: &impl Print, number: usize) -> io::Result<()> {
    say(rt, b"refused ")?;
    say_number(rt, number)?;
    say(rt, b"\n")
}

fn print(rt: &impl Print, out: &[u8], n: usize) -> io::Result<()> {
    if out.len() < n {
        return Ok(());
    }
    say_line(rt, &out[..n])
}

// What was written, or document 01's number.
fn show(rt: &impl Print, written: Result<usize, WriteError>, out: &[u8]) -> io::Result<()> {
    match written {
        Ok(n) => print(rt, out, n),
        Err(WriteError::BadCalendar) => refused(rt, 19),
        Err(WriteError::NoWeekdayForm) => refused(rt, 20),
        Err(WriteError::NoRoom) => refused(rt, 17),
    }
}

fn day_string(
    rt: &impl Print,
    days: &[u8],
    first: Date,
    last: Date,
    short: bool,
    out: &mut [u8],
) -> io::Result<()> {
    show(
        rt,
        calendar::write_day_string(days, first, last, short, out),
        out,
    )
}

fn weekdays(
    rt: &impl Print,
    days: &[u8],
    first: Date,
    last: Date,
    out: &mut [u8],
) -> io::Result<()> {
    show(rt, calendar::write_weekdays(days, first, last, out), out)
}

// All characters, the short form and the weekdays into 544 bytes, which every form fits; then into 44, 39 and 33.
fn forms(rt: &impl Print, days: &[u8], first: Date, last: Date) -> io::Result<()> {
    let mut out = [0u8; 544];
    day_string(rt, days, first, last, false, &mut out)?;
    day_string(rt, days, first, last, true, &mut out)?;
    weekdays(rt, days, first, last, &mut out)?;
    let mut all = [0u8; 44];
    day_string(rt, days, first, last, false, &mut all)?;
    let mut short = [0u8; 39];
    day_string(rt, days, first, last, true, &mut short)?;
    let mut named = [0u8; 33];
    weekdays(rt, days, first, last, &mut named)
}

fn handle(rt: &impl Print, line: &[u8]) -> io::Result<()> {
    let mut days = [0u8; 64];
    mark_all(&mut days, line);
    forms(rt, &days, date(line, 0), date(line, 11))
}

fn all_lines(rt: &impl Print, text: &[u8]) -> io::Result<()> {
    for line in text.split_inclusive(|&b| b == b'\n') {
        handle(rt, line.strip_suffix(b"\n").unwrap_or(line))?;
    }
    Ok(())
}

fn main(rt: HostRuntime) -> io::Result<()> {
    let mut buffer = [0u8; 65536];
    let n = read_input(&mut rt.stdin(), &mut buffer)?;
    all_lines(&rt, &buffer[..n])?;
    forms(&rt, b"", Date::FIRST, Date::FIRST)
}
