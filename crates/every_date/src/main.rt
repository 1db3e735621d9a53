#![tactic(auto)]

// Holds the proved functions to another implementation of the calendar: data/dates has every date from 1990-01-01 to 2099-12-31 with
// its day number and weekday, and data/refused has what is no date.
use dates::Date;
use lines::{read_input, say, say_number};
use std::fs::File;
use std::io;
use std::io::Read;
use std::rt::Files;

fn digit(number: usize) -> u8 {
    48 + (number % 10) as u8
}

// A line of data/dates: the date, its number in five digits, its weekday.
fn line_of(date: [u8; 10], number: usize, weekday: u8) -> [u8; 19] {
    [
        date[0],
        date[1],
        date[2],
        date[3],
        date[4],
        date[5],
        date[6],
        date[7],
        date[8],
        date[9],
        b' ',
        digit(number / 10000),
        digit(number / 1000),
        digit(number / 100),
        digit(number / 10),
        digit(number),
        b' ',
        digit(weekday as usize),
        b'\n',
    ]
}

// Whether the line reads as a date, and that date's number, turned into a date, makes the line again.
fn holds(line: &[u8]) -> bool {
    let Some(date) = dates::read_date(line, 0) else {
        return false;
    };
    let Some(number) = date.day_number() else {
        return false;
    };
    let Some(again) = Date::from_number(number) else {
        return false;
    };
    let made = line_of(again.text(), number, dates::weekday(number));
    line == &made[..]
}

fn refused(line: &[u8]) -> bool {
    dates::read_date(line, 0).is_none()
}

fn print(rt: &impl Print, name: &[u8], lines: usize, held: usize) -> io::Result<()> {
    say(rt, name)?;
    say_number(rt, held)?;
    say(rt, b" of ")?;
    say_number(rt, lines)?;
    say(rt, b"\n")
}

// How many lines were read, and how many of them are as they should be.
#[derive(Clone, Copy)]
struct Tally {
    lines: usize,
    held: usize,
}

fn counted(tally: Tally, ok: bool) -> Tally {
    Tally {
        lines: std::num::wrapping_add_usize(tally.lines, 1),
        held: std::num::wrapping_add_usize(tally.held, ok as usize),
    }
}

fn next_date(file: &mut impl Read, tally: Tally) -> io::Result<Tally> {
    let mut line = [0u8; 19];
    if read_input(file, &mut line)? != 19 {
        return Ok(tally);
    }
    Ok(counted(tally, holds(&line)))
}

fn next_refused(file: &mut impl Read, tally: Tally) -> io::Result<Tally> {
    let mut line = [0u8; 11];
    if read_input(file, &mut line)? != 11 {
        return Ok(tally);
    }
    Ok(counted(tally, refused(&line)))
}

fn next_line(file: &mut impl Read, dated: bool, tally: Tally) -> io::Result<Tally> {
    if dated {
        next_date(file, tally)
    } else {
        next_refused(file, tally)
    }
}

// All the lines of a file, of dates or of what is none: there are fewer lines than turns.
fn all_lines(file: &mut impl Read, dated: bool) -> io::Result<Tally> {
    let mut tally = Tally { lines: 0, held: 0 };
    for _ in 0..50000 {
        tally = next_line(file, dated, tally)?;
    }
    Ok(tally)
}

// The first line of each file says where it is from.
fn every_date(rt: &(impl Files + Print)) -> io::Result<()> {
    let mut file = File::open(rt, "dates")?;
    let mut header = [0u8; 95];
    read_input(&mut file, &mut header)?;
    let tally = all_lines(&mut file, true)?;
    print(rt, b"dates that agree: ", tally.lines, tally.held)
}

fn no_dates(rt: &(impl Files + Print)) -> io::Result<()> {
    let mut file = File::open(rt, "refused")?;
    let mut header = [0u8; 99];
    read_input(&mut file, &mut header)?;
    let tally = all_lines(&mut file, false)?;
    print(rt, b"refused: ", tally.lines, tally.held)
}

// Bytes that end before the tenth, and an offset past the end.
fn short() -> usize {
    let past_end = dates::read_date(b"2000-08-01", 1).is_none();
    refused(b"") as usize + refused(b"2000-08-0") as usize + past_end as usize
}

// The number after the last date's has no date.
fn past_last() -> usize {
    Date::from_number(40177).is_none() as usize
}

fn number_of(date: Date) -> usize {
    date.day_number().unwrap_or(99999)
}

fn main(rt: HostRuntime) -> io::Result<()> {
    every_date(&rt)?;
    no_dates(&rt)?;
    print(&rt, b"refused for its length: ", 3, short())?;
    print(&rt, b"refused past the last: ", 1, past_last())?;
    say(&rt, b"first and last: ")?;
    say_number(&rt, number_of(Date::FIRST))?;
    say(&rt, b" ")?;
    say_number(&rt, number_of(Date::LAST))?;
    say(&rt, b"\n")
}
