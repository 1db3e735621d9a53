//! Reads interchanges, a line each, and writes their services and what the tests 11 and 12 come to.
//! A service is a line: the offset of its PRD, its number as written, `put` or `del`, and the offsets of its POPs.
//! Below its services stands the answer: `services` and how many, or `refused`, number, position and part.

#![tactic(auto)]

use interchange::reader::read;
use lines::{read_input, say, say_number, say_refusal};
use parts::bytes_of;
use services::{Periods, Service, Services, test_services};
use std::io;

fn print_periods(rt: &impl Print, rows: &[u32], from: usize, to: usize) -> io::Result<()> {
    for offset in Periods::among(rows, from, to) {
        say(rt, b" ")?;
        say_number(rt, offset)?;
    }
    Ok(())
}

fn print_service(rt: &impl Print, s: &[u8], rows: &[u32], service: Service) -> io::Result<()> {
    say_number(rt, service.prd)?;
    say(rt, b" ")?;
    let number = service.number;
    say(rt, bytes_of(s, number))?;
    if service.removal {
        say(rt, b" del")?;
    } else {
        say(rt, b" put")?;
    }
    print_periods(rt, rows, service.from, service.to)?;
    say(rt, b"\n")
}

fn print_services(rt: &impl Print, s: &[u8], rows: &[u32], n: usize) -> io::Result<()> {
    for service in Services::of(s, rows, n) {
        print_service(rt, s, rows, service)?;
    }
    Ok(())
}

fn answer_rows(rt: &impl Print, s: &[u8], rows: &[u32], n: usize) -> io::Result<()> {
    print_services(rt, s, rows, n)?;
    match test_services(s, rows, n) {
        Ok(k) => {
            say(rt, b"services ")?;
            say_number(rt, k)?;
            say(rt, b"\n")
        }
        Err(refusal) => say_refusal(rt, refusal.number, refusal.position, refusal.part),
    }
}

fn answer_interchange(rt: &impl Print, s: &[u8]) -> io::Result<()> {
    let mut rows = [0u32; 45000];
    match read(s, true, &mut rows) {
        Ok(n) => answer_rows(rt, s, &rows, n),
        Err(refusal) => say_refusal(rt, refusal.number, refusal.position, refusal.part),
    }
}

fn answer_all(rt: &impl Print, text: &[u8]) -> io::Result<()> {
    for line in text.split_inclusive(|&b| b == b'\n') {
        answer_interchange(rt, line.strip_suffix(b"\n").unwrap_or(line))?;
    }
    Ok(())
}

fn main(rt: HostRuntime) -> io::Result<()> {
    let mut buffer = [0u8; 60000];
    let n = read_input(&mut rt.stdin(), &mut buffer)?;
    answer_all(&rt, &buffer[..n])
}
