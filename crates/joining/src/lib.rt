//! The union of several periods over a window of days: each is joined into a lent calendar.

#![tactic(auto)]

ghost use Rattle.std.specs.Prelude.{◌≡◌, true, ℕ, ◌+◌, ◌*◌, ◌%◌, ◌≤◌, ◌<◌, min, eqb, length, get_or, drop, Ok};
ghost use Rattle.laws.specs.Choice.{pick, all};
ghost use Rattle.syntax.specs.Bytes.{plain};
ghost use Rattle.syntax.specs.Pieces.{part_of};
ghost use Rattle.syntax.specs.Segment.{body_at};
ghost use Rattle.parts.specs.Places.{bytes_of};
ghost use Rattle.dates.specs.Days.{weekday_of};
ghost use Rattle.calendar.specs.Days.{has_bit, with_day};
ghost use Rattle.period.specs.Period.{day_text, week_text, zero_or_one, runs_by, period_of};
ghost use Rattle.joining.specs.Joined.{marked, week_bits, window_answer, window_days, answered, days_joined, joined_answer, join_answer};
ghost use Rattle.joining.specs.Gathered.{gathered_of};
ghost use Rattle.joining.specs.Places.{Dated, Tagged, Bare, Spoken};
ghost use Rattle.joining.specs.Strings.{runs_on};
ghost use Rattle.joining.specs.Weekdays.{plain_week, Marked};

use calendar::{set_day, with_bit};
use parts::{Part, bytes_of, segment_at};
use period::{Fault, Form, Period, are_days, part_of, pop_at, read_period};
use raw_bytes::eight_at;
use values::characters;

// The lowest bit of each of eight bytes.
const LOWEST: usize = 0x0101_0101_0101_0101;

/// Why a period is not joined.
#[derive(Clone, Copy, PartialEq, Eq, Debug)]
pub enum JoinError {
    /// 10: which part is wrong.
    WrongPeriod(Fault),
    /// 13: the period is not wholly in the window.
    Outside,
}

// Selects a day where it is wanted.
fn set_if(days: &mut [u8], k: usize, wanted: bool)
    ensures { days.new ≡ pick wanted (with_day days.old k) days.old }
{
    if !wanted {
        return;
    }
    set_day(days, k);
}

// The weekdays that a part names, as the bits of a byte: the digit w, 48 + w, is w past a multiple of 8.
#[tactic(auto, unfolding(crate::specs::Joined::week_bits))]
fn week_of(part: &[u8]) -> u8
    ensures { result ≡ week_bits 0 (plain part.now) }
{
    let mut week = 0;
    for b in characters(part) {
        week = with_bit(week, b as usize);
    }
    week
}

fn shorter(a: usize, b: usize) -> usize
    ensures { result ≡ min a b }
{
    if a < b { a } else { b }
}

// Selects by the lowest bits of a number m days, all in one byte of the calendar.
fn mark_bits(days: &mut [u8], at: usize, bits: u8, m: usize)
    requires { (1 ≤ m) × (at % 8 + m ≤ 8) × (at + m ≤ 8 * length days.old) }
    ensures { days.new ≡ marked (has_bit bits) days.old at 0 m }
{
    let i = at / 8;
    days[i] = days[i] | ((bits & (255 >> (8 - m))) << (at % 8));
}

// The eight days from one on as the bits of a byte, by the week's days: two weeks one behind the other hold them.
fn eight_days(week: u8, first: usize) -> u8
    ensures { (j : ℕ) → j < 8 → has_bit result j ≡ has_bit week (weekday_of (first + j)) }
{
    let weeks = (week as usize / 2) * 129;
    ((weeks >> (first % 7)) & 255) as u8
}

// The same of the eight days after those: as eight are one more than a week, a day further.
fn next_eight(eight: u8) -> u8
    ensures { (j : ℕ) → j < 8 → has_bit result j ≡ has_bit eight (j % 7 + 1) }
{
    eight / 2 + eight / 2 % 2 * 128
}

// Selects those of n days that fall on one of the week's days: up to a byte's end, then byte by byte, then the rest.
fn mark_weekdays(days: &mut [u8], at: usize, first: usize, n: usize, week: u8)
    requires { (1 ≤ n) × (at + n ≤ 8 * length days.old) × (at + n ≤ 65536) × (first + n ≤ 65536) }
    ensures { days.new ≡ marked (λ k. has_bit week (weekday_of (first + k))) days.old at 0 n }
{
    let lead = 8 - at % 8;
    mark_bits(days, at, eight_days(week, first), shorter(lead, n));
    let last = (at + n) / 8;
    let mut i = (at + lead) / 8;
    let mut eight = eight_days(week, first + lead);
    while i < last {
        days[i] = days[i] | eight;
        eight = next_eight(eight);
        i += 1;
    }
    let k = 8 * i - at;
    if n <= k {
        return;
    }
    mark_bits(days, at + k, eight, n - k);
}

// The lowest bits of eight bytes as those of one byte, the first the lowest: the last four bytes are laid between the first four, and a
// product brings the bits side by side.
fn eight_bits(word: usize) -> u8
    ensures { result ≡ gathered_of word }
{
    let bits = word & LOWEST;
    let pairs = (bits + (bits >> 28)) & 0xffff_ffff;
    ((pairs * 0x0020_4081 >> 21) & 255) as u8
}

// Characters of a day string as bits, the first the lowest: up to eight, at once where so many stand there.
fn day_bits(text: &[u8], from: usize, m: usize) -> u8
    requires { (m ≤ 8) × (from + m ≤ length text.now) × (all zero_or_one text.now ≡ true) }
    ensures { (j : ℕ) → j < m → has_bit result j ≡ eqb (get_or text.now (from + j) 0) 49 }
{
    if let Some(word) = eight_at(text, from) {
        return eight_bits(word);
    }
    let mut bits = 0u8;
    let mut left = m;
    while 0 < left {
        left -= 1;
        bits = (bits << 1) | (text[from + left] == b'1') as u8;
    }
    bits
}

// Selects the days whose character is `1`, each of the text's: as the weekdays.
fn mark_text(days: &mut [u8], at: usize, text: &[u8])
    requires { (1 ≤ length text.now) × (at + length text.now ≤ 8 * length days.old) × (at + length text.now ≤ 65536) × (all zero_or_one text.now ≡ true) }
    ensures { days.new ≡ marked (λ k. eqb (get_or text.now k 0) 49) days.old at 0 (length text.now) }
{
    let n = text.len();
    let lead = 8 - at % 8;
    let m = shorter(lead, n);
    mark_bits(days, at, day_bits(text, 0, m), m);
    let mut k = lead;
    loop {
        let Some(word) = eight_at(text, k) else {
            if n <= k {
                return;
            }
            mark_bits(days, at + k, day_bits(text, k, n - k), n - k);
            return;
        };
        let i = (at + k) / 8;
        days[i] = days[i] | eight_bits(word);
        k += 8;
    }
}

// The same where some of the characters are released: one after the other.
fn mark_released(days: &mut [u8], at: usize, part: &[u8], n: usize)
    requires { at + n ≤ 65536 }
    ensures { days.new ≡ marked (λ k. eqb (get_or (plain part.now) k 0) 49) days.old at 0 n }
{
    for (k, b) in (at..at + n).zip(characters(part)) {
        set_if(days, k, b == b'1');
    }
}

// Component c of element e of a POP.
fn part_in(g: &[u8], e: usize, c: usize) -> &[u8]
    ensures { result.now ≡ part_of g.now e 1 c }
{
    part_of(
        g,
        Part {
            from: 0,
            to: g.len(),
        },
        e,
        c,
    )
}

// Whether a POP begins with its tag and a mark.
fn is_tagged(g: &[u8]) -> bool
    ensures { result ≡ true → Tagged g.now }
{
    if g.len() < 4 {
        return false;
    }
    if g[0] != b'P' {
        return false;
    }
    if g[1] != b'O' {
        return false;
    }
    if g[2] != b'P' {
        return false;
    }
    g[3] == b'+'
}

// Whether behind `POP+` and 27 bytes more only characters of days stand.
fn is_bare(g: &[u8]) -> bool
    ensures { result ≡ true → Bare g.now }
{
    if g.len() < 31 {
        return false;
    }
    if !are_days(g, 31) {
        return false;
    }
    is_tagged(g)
}

// The day string of a POP whose period is good, where none of its characters is released; else nothing. At least 27 bytes stand between
// `POP+` and the string, so where only characters of days stand behind so many, they are the string.
fn bare_string(g: &[u8]) -> &[u8]
    requires { Dated g.now × (1 ≤ length (day_text g.now)) }
    ensures { 1 ≤ length result.now → (result.now ≡ part_of g.now 1 1 4) × (all zero_or_one result.now ≡ true) }
{
    if is_bare(g) {
        return &g[31..];
    }
    let part = part_in(g, 1, 4);
    if are_days(part, 0) {
        return part;
    }
    &part[..0]
}

// Selects those of n days whose character is `1`; the days that have none do not run.
fn mark_string(days: &mut [u8], at: usize, g: &[u8], n: usize)
    requires { (at + n ≤ 8 * length days.old) × (at + n ≤ 65536) × Spoken g.now n }
    ensures { days.new ≡ marked (runs_on (day_text g.now)) days.old at 0 n }
{
    let text = bare_string(g);
    if text.len() == 0 {
        mark_released(days, at, part_in(g, 1, 4), n);
        return;
    }
    mark_text(days, at, text);
}

// Whether a mark stands behind `POP+` and 25 bytes more.
fn is_marked(g: &[u8]) -> bool
    ensures { result ≡ true → Marked g.now }
{
    if g.len() < 31 {
        return false;
    }
    if g[28] == b'?' {
        return false;
    }
    if g[29] != b'+' {
        return false;
    }
    is_tagged(g)
}

// The weekdays that the bytes from an index on name, as bits; none where one of the bytes is no weekday.
fn plain_week(g: &[u8], from: usize) -> u8
    ensures { result ≡ plain_week 0 (drop from g.now) }
{
    let mut week = 0u8;
    let mut i = from;
    while i < g.len() {
        let b = g[i];
        if b < b'1' {
            return 0;
        }
        if b'7' < b {
            return 0;
        }
        week = with_bit(week, b as usize);
        i += 1;
    }
    week
}

// The weekdays of a POP whose period is good. Its first element has at least 25 bytes, so a mark behind so many ends it.
fn week_in(g: &[u8]) -> u8
    requires { Dated g.now }
    ensures { result ≡ week_bits 0 (week_text g.now) }
{
    if !is_marked(g) {
        return week_of(part_in(g, 2, 1));
    }
    let week = plain_week(g, 30);
    if week == 0 {
        return week_of(part_in(g, 2, 1));
    }
    week
}

// Selects the days of a period that run; its first day is at an index of the calendar.
fn mark_form(days: &mut [u8], at: usize, g: &[u8], period: Period)
    requires { (at + period.days.count ≤ 8 * length days.old) × (at + period.days.count ≤ 65536) × (period_of true g.now ≡ Ok period) }
    ensures { days.new ≡ marked (runs_by g.now period.form period.days.first) days.old at 0 period.days.count }
{
    let first = period.days.first;
    let n = period.days.count;
    match period.form {
        Form::Every => {
            mark_weekdays(days, at, first, n, 254);
        }
        Form::ByString => {
            mark_string(days, at, g, n);
        }
        Form::ByWeekdays => {
            mark_weekdays(days, at, first, n, week_in(g));
        }
    }
}

// The same where the period lies in the window.
fn join_form(days: &mut [u8], origin: usize, g: &[u8], period: Period) -> Result<(), JoinError>
    requires { period_of true g.now ≡ Ok period }
    ensures { (result ≡ window_answer (length days.old) origin period.days.first period.days.count) × (days.new ≡ window_days days.old origin g.now period.days.first period.days.count period.form) }
{
    let first = period.days.first;
    if first < origin {
        return Err(JoinError::Outside);
    }
    let at = first - origin;
    if days.len() <= (at + period.days.count - 1) / 8 {
        return Err(JoinError::Outside);
    }
    mark_form(days, at, g, period);
    Ok(())
}

/// Selects the days of a POP's period in a calendar of 8 days for each byte, whose first day has the number `origin`. The wish is whether the
/// caller asks for the old reading of a POP with neither form. On a refusal the calendar stays as it was.
pub fn join_period(
    days: &mut [u8],
    origin: usize,
    s: &[u8],
    segment: Part,
    wish: bool,
) -> Result<(), JoinError>
    ensures told { (result ≡ answered wish (length days.old) origin (bytes_of s.now segment)) × (days.new ≡ days_joined wish days.old origin (bytes_of s.now segment)) }
    ensures said { joined_answer segment.from result ≡ join_answer wish segment.from (length days.old) origin (bytes_of s.now segment) }
{
    match read_period(s, segment, wish) {
        Ok(period) => join_form(days, origin, bytes_of(s, segment), period),
        Err(fault) => Err(JoinError::WrongPeriod(fault)),
    }
}

/// Selects the days of the POP at an offset, up to its terminator or to the input's end, as `join_period` does of a segment.
pub fn join_at(
    days: &mut [u8],
    origin: usize,
    s: &[u8],
    at: usize,
    wish: bool,
) -> Result<(), JoinError>
    ensures told { (result ≡ answered wish (length days.old) origin (body_at s.now at)) × (days.new ≡ days_joined wish days.old origin (body_at s.now at)) }
    ensures said { joined_answer at result ≡ join_answer wish at (length days.old) origin (body_at s.now at) }
{
    match pop_at(s, at, wish) {
        Some(pop) => join_form(days, origin, &s[at..pop.end], pop.period),
        None => join_period(days, origin, s, segment_at(s, at), wish),
    }
}
