//! A POP in one of the usual forms, as most are written, read straight through from where it starts: what it says tells where it ends.

ghost use Rattle.std.specs.Prelude.{◌≡◌, ◌+◌, ◌<◌, IfSome, length, get_or, drop};
ghost use Rattle.period.specs.Written.{Begins, span_told, Word};
ghost use Rattle.period.specs.Pops.{rising_run, WeekIn, StringIn, pop_told};

use crate::dated::{are_dates, day_at};
use crate::strings::{are_days, days_end};
use crate::{Form, Period, Pop};
use calendar::{Span, days_from};
use syntax::segment::quick_end;

// Four bytes as one number.
fn word(a: u8, b: u8, c: u8, d: u8) -> u32
    ensures { Word result a b c d }
{
    a as u32 + b as u32 * 256 + c as u32 * 65536 + d as u32 * 16777216
}

// The days of a POP that begins as most are written, `POP+273:first/last`.
fn written_span(g: &[u8]) -> Option<Span>
    ensures { span_told g.now result }
{
    if g.len() < 29 {
        return None;
    }
    if word(g[0], g[1], g[2], g[3]) != word(b'P', b'O', b'P', b'+') {
        return None;
    }
    if word(g[4], g[5], g[6], g[7]) != word(b'2', b'7', b'3', b':') {
        return None;
    }
    if !are_dates(g) {
        return None;
    }
    let first = day_at(g, 8)?;
    let last = day_at(g, 19)?;
    days_from(first, last)
}

// Behind the weekdays that rise from an index on.
fn rising_end(g: &[u8], from: usize) -> usize
    ensures { result ≡ from + rising_run 48 (drop from g.now) }
{
    let mut i = from;
    let mut last = b'0';
    while i < g.len() {
        let b = g[i];
        if b <= last {
            return i;
        }
        if b'7' < b {
            return i;
        }
        last = b;
        i += 1;
    }
    i
}

// Where the POP ends whose second element, behind the dates and a `+`, names weekdays.
fn weekdays_end(g: &[u8]) -> Option<usize>
    ensures { IfSome result (WeekIn g.now) }
{
    let end = rising_end(g, 30);
    if g.len() <= end || end <= 30 {
        return None;
    }
    if g[end] != b'\'' {
        return None;
    }
    Some(end)
}

// Where the POP ends whose day string stands behind the dates with a character for each of so many days.
fn full_end(g: &[u8], count: usize) -> Option<usize>
    ensures { IfSome result (StringIn g.now count) }
{
    if g.len() < 32 {
        return None;
    }
    if g.len() - 32 < count {
        return None;
    }
    if count == 0 {
        return None;
    }
    let end = 31 + count;
    // The two marks and the terminator take one test.
    if word(g[29], g[30], g[end], 0) != word(b':', b':', b'\'', 0) {
        return None;
    }
    if !are_days(&g[..end], 31) {
        return None;
    }
    Some(end)
}

// Where it ends with at least one character and at most so many, wherever they end.
fn short_end(g: &[u8], count: usize) -> Option<usize>
    ensures { IfSome result (StringIn g.now count) }
{
    let end = days_end(g, 31);
    if g.len() <= end {
        return None;
    }
    if end <= 31 {
        return None;
    }
    if count < end - 31 {
        return None;
    }
    if word(g[29], g[30], g[end], 0) != word(b':', b':', b'\'', 0) {
        return None;
    }
    Some(end)
}

// Where the POP ends whose day string stands behind the dates. Most have a character for each day, so that their end is known before.
fn string_end(g: &[u8], count: usize) -> Option<usize>
    ensures { IfSome result (StringIn g.now count) }
{
    if let Some(end) = full_end(g, count) {
        return Some(end);
    }
    short_end(g, count)
}

// The POP whose second element is empty, whatever follows: "Giving neither means every day."
fn read_passed(s: &[u8], at: usize, days: Span) -> Option<Pop>
    requires { Begins (drop at s.now) days.first days.count × (30 < length (drop at s.now)) × (get_or (drop at s.now) 29 0 ≡ 43) × (get_or (drop at s.now) 30 0 ≡ 43) }
    ensures { pop_told s.now at result }
{
    let end = quick_end(s, at)?;
    Some(Pop::new(end, days, Form::Every))
}

// The POP at an offset that goes on with a `+` behind its dates; g is what stands from the offset on.
fn read_second(s: &[u8], at: usize, g: &[u8], days: Span) -> Option<Pop>
    requires { (g.now ≡ drop at s.now) × Begins g.now days.first days.count × (29 < length g.now) × (get_or g.now 29 0 ≡ 43) × (at + length g.now ≡ length s.now) }
    ensures { pop_told s.now at result }
{
    if let Some(end) = weekdays_end(g) {
        return Some(Pop::new(at + end, days, Form::ByWeekdays));
    }
    if g.len() <= 30 {
        return None;
    }
    if g[30] == b'+' {
        return read_passed(s, at, days);
    }
    None
}

// The POP at an offset by what stands behind its dates.
fn read_behind(s: &[u8], at: usize, g: &[u8], days: Span) -> Option<Pop>
    requires { (g.now ≡ drop at s.now) × Begins g.now days.first days.count × (29 < length g.now) × (at + length g.now ≡ length s.now) }
    ensures { pop_told s.now at result }
{
    if g[29] == b'\'' {
        return Some(Pop::new(at + 29, days, Form::Every));
    }
    if g[29] == b'+' {
        return read_second(s, at, g, days);
    }
    let end = string_end(g, days.count)?;
    Some(Pop::new(at + end, days, Form::ByString))
}

// The POP at an offset where it is in one of the usual forms; any other may still be one.
pub(crate) fn read_written(s: &[u8], at: usize) -> Option<Pop>
    ensures { pop_told s.now at result }
{
    if s.len() <= at {
        return None;
    }
    let g = &s[at..];
    if g.len() <= 29 {
        return None;
    }
    let days = written_span(g)?;
    read_behind(s, at, g, days)
}
