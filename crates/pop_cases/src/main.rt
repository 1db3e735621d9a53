//! Reads POPs, a line each, and writes what they say: `period` POP, or `join` DATE POP POP .., parted by tabs,
//! where the POPs to join stand one behind the other. A period is written as its first date, its last date and a `0` or `1` for each day;
//! after joining stand the days of the window of 512 days from the date on. `ask`, a tab and 0 or 1: whether the lines below ask for the old
//! reading of a POP with neither form; those before the first such line do.

#![tactic(auto)]

ghost use Rattle.std.specs.Prelude.{◌≡◌};

use dates::Date;
use joining::JoinError;
use lines::{read_input, say, say_number};
use parts::Part;
use period::{Fault, Period};
use std::io;
use syntax::segment::read_segment;

fn print_date(rt: &impl Print, number: usize) -> io::Result<()> {
    let Some(date) = Date::from_number(number) else {
        return Ok(());
    };
    let text = date.text();
    say(rt, &text)
}

// The first and the last of n days.
fn print_span(rt: &impl Print, first: usize, n: usize) -> io::Result<()> {
    if 65536 < first {
        return Ok(());
    }
    if 512 < n {
        return Ok(());
    }
    if n == 0 {
        return Ok(());
    }
    print_date(rt, first)?;
    say(rt, b" ")?;
    print_date(rt, first + n - 1)
}

fn digit(yes: bool) -> u8 {
    if yes { b'1' } else { b'0' }
}

fn days_text(s: &[u8], segment: Part, period: Result<Period, Fault>) -> [u8; 512] {
    let mut text = [b'0'; 512];
    for (k, character) in text.iter_mut().enumerate() {
        *character = digit(period::day_runs(s, segment, period, k));
    }
    text
}

fn print_days(
    rt: &impl Print,
    s: &[u8],
    segment: Part,
    period: Result<Period, Fault>,
    n: usize,
) -> io::Result<()> {
    if 512 < n {
        return Ok(());
    }
    let text = days_text(s, segment, period);
    say(rt, parts::bytes_of(&text, Part { from: 0, to: n }))
}

fn refuse(rt: &impl Print, fault: Fault) -> io::Result<()> {
    say(rt, b"refused 10 ")?;
    say_number(rt, fault.number() as usize)
}

fn answer_period(rt: &impl Print, line: &[u8], segment: Part, wish: bool) -> io::Result<()> {
    let period = period::read_period(line, segment, wish);
    match period {
        Err(fault) => refuse(rt, fault),
        Ok(Period { days, form: _ }) => {
            print_span(rt, days.first, days.count)?;
            say(rt, b" ")?;
            print_days(rt, line, segment, period, days.count)
        }
    }
}

// The segment at an offset, where it is whole.
fn segment_at(line: &[u8], from: usize) -> Part
    ensures { result.from ≡ from }
{
    Part {
        from,
        to: read_segment(line, from).unwrap_or(from),
    }
}

fn answer_joined(rt: &impl Print, joined: Result<(), JoinError>) -> io::Result<()> {
    match joined {
        Ok(()) => say(rt, b"done "),
        Err(JoinError::WrongPeriod(fault)) => {
            refuse(rt, fault)?;
            say(rt, b" ")
        }
        Err(JoinError::Outside) => say(rt, b"refused 13 "),
    }
}

fn window_text(days: [u8; 64]) -> [u8; 512] {
    let mut text = [b'0'; 512];
    for (k, character) in text.iter_mut().enumerate() {
        *character = digit(calendar::test_day(&days, k));
    }
    text
}

fn print_window(rt: &impl Print, days: [u8; 64]) -> io::Result<()> {
    let text = window_text(days);
    say(rt, &text)
}

// Joins the POPs that stand one behind the other from an offset on.
fn join_all(
    rt: &impl Print,
    days: &mut [u8],
    origin: usize,
    line: &[u8],
    from: usize,
    wish: bool,
) -> io::Result<()> {
    let mut at = from;
    // The index moves past the segment that was read, not by one.
    while at < line.len() {
        let segment = segment_at(line, at);
        let to = segment.to;
        answer_joined(rt, joining::join_period(days, origin, line, segment, wish))?;
        if to < at {
            return Ok(());
        }
        if line.len() <= to {
            return Ok(());
        }
        at = to + 1;
    }
    Ok(())
}

fn answer_join(rt: &impl Print, line: &[u8], origin: usize, wish: bool) -> io::Result<()> {
    let mut days = [0u8; 64];
    join_all(rt, &mut days, origin, line, 16, wish)?;
    print_window(rt, days)
}

fn answer_pop(rt: &impl Print, line: &[u8], wish: bool) -> io::Result<()> {
    if line.len() == 0 {
        return Ok(());
    }
    if line[0] == b'p' {
        answer_period(rt, line, segment_at(line, 7), wish)?;
        return say(rt, b"\n");
    }
    let Some(date) = dates::read_date(line, 5) else {
        return Ok(());
    };
    let Some(origin) = date.day_number() else {
        return Ok(());
    };
    answer_join(rt, line, origin, wish)?;
    say(rt, b"\n")
}

// Whether the lines below a line ask.
fn wish_after(line: &[u8], wish: bool) -> bool {
    if line.len() < 5 {
        return wish;
    }
    if line[0] != b'a' {
        return wish;
    }
    line[4] == b'1'
}

fn answer_all(rt: &impl Print, text: &[u8]) -> io::Result<()> {
    let mut wish = true;
    for line in text.split(|&b| b == b'\n') {
        answer_pop(rt, line, wish)?;
        wish = wish_after(line, wish);
    }
    Ok(())
}

fn main(rt: HostRuntime) -> io::Result<()> {
    let mut buffer = [0u8; 60000];
    let n = read_input(&mut rt.stdin(), &mut buffer)?;
    answer_all(&rt, &buffer[..n])
}
