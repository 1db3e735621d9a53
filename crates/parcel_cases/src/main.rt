//! Reads cases, a line each, and reads their interchanges in parcels (document 02, A1). In a text `~` and two hexadecimal digits stand for a
//! byte, and `{3|text}` for a text three times. A line that begins with `#` is copied.
//!
//! `cuts`, two offsets and an interchange, parted by tabs: it is read in one parcel, byte by byte, and for each offset from the first up to
//! the second cut there once, and cut into parcels of so many bytes. Written are its rows and its refusal, and then `same`, the offsets
//! that were tried, and with which byte the refusal was named, byte by byte, or `end`; or `differs`, and what the first way that differs gives.
//!
//! `store`, a length, and calls, parted by tabs: `begin`, `finish`, or a parcel behind `|`, before which stands how many numbers the buffer
//! for the rows holds. Written is what each call tells, and its rows.
//!
//! These ask for the old reading of a POP with neither form; `given` and `new` are as `cuts` and `begin` but do not.
//!
//! More than 60 rows are told by `long`, how many they are, and a remainder by 65,521.

#![tactic(auto)]

use answers::Refusal;
use lines::{decode, field, number, past, piece_at, read_input, say, say_line, say_number};
use parcel_store::STORE;
use parcels::{Fault, begin, finish, take};
use parts::{Part, bytes_of};
use std::io;
use text::{write_refusal, write_table};

// The bytes that a text says, behind those that are there, as far as there is room; where they end.
fn add(out: &mut [u8], at: usize, text: &[u8]) -> usize {
    if out.len() < at {
        return at;
    }
    let more = decode(text, &mut out[at..]);
    if out.len() - at < more {
        return at;
    }
    at + more
}

fn add_often(out: &mut [u8], at: usize, text: &[u8], times: usize) -> usize {
    let mut to = at;
    for _ in 0..times {
        to = add(out, to, text);
    }
    to
}

// What the notation says, over the front of the bytes lent; how many bytes it has. In turn a plain text and one that is repeated.
fn expand(notation: &[u8], out: &mut [u8]) -> usize {
    let mut n = 0;
    let mut i = 0;
    // The index moves past what was read, not by one.
    while i < notation.len() {
        n = add(out, n, piece_at(notation, i, b'{'));
        let group = past(notation, i, b'{');
        if notation.len() <= group {
            return n;
        }
        let text = piece_at(notation, past(notation, group, b'|'), b'}');
        n = add_often(out, n, text, number(notation, group));
        i = past(notation, group, b'}');
    }
    n
}

fn print(rt: &impl Print, out: &[u8], from: usize, written: Option<usize>) -> io::Result<()> {
    match written {
        Some(to) => say(rt, bytes_of(out, Part { from, to })),
        None => say(rt, b"no room\n"),
    }
}

fn print_refusal(rt: &impl Print, refusal: Refusal) -> io::Result<()> {
    let mut line = [0u8; 72];
    let written = write_refusal(refusal, &mut line);
    print(rt, &line, 0, written)
}

fn folded(r: usize, number: u32) -> usize {
    (r % 65521 * 257 + number as usize) % 65521
}

// The numbers of the first n rows, folded into one.
fn fold(rows: &[u32], n: usize) -> usize {
    let mut r = 0;
    for row in rows.chunks(3).take(n) {
        for &number in row {
            r = folded(r, number);
        }
    }
    r
}

// The rows as they are printed, without the heading.
fn print_rows(rt: &impl Print, rows: &[u32], n: usize) -> io::Result<()> {
    if 60 < n {
        say(rt, b"long\t")?;
        say_number(rt, n)?;
        say(rt, b"\t")?;
        say_number(rt, fold(rows, n))?;
        return say(rt, b"\n");
    }
    let mut out = [0u8; 2777];
    let written = write_table(rows, n, &mut out);
    print(rt, &out, 17, written)
}

// How a reading went that asked or did not: how many numbers its rows are, its refusal, and with which byte a parcel named it.
#[derive(Clone, Copy)]
struct Course {
    wish: bool,
    numbers: usize,
    refusal: Option<Refusal>,
    named: Option<usize>,
}

// A refusal that no reading names: the last call tells of another fault than the parcels did (0), accepts where they named one (1), or
// counts other rows than they brought (2).
fn differing(position: usize) -> Refusal {
    Refusal {
        number: 255,
        position,
        part: 0,
    }
}

fn print_course(rt: &impl Print, course: Course, rows: &[u32]) -> io::Result<()> {
    print_rows(rt, rows, course.numbers / 3)?;
    match course.refusal {
        Some(refusal) => print_refusal(rt, refusal),
        None => Ok(()),
    }
}

// Where the numbers of n rows end that stand from an index on.
fn behind(from: usize, n: usize) -> usize {
    from % 65536 + n % 65536 * 3
}

// One parcel more, which ends at an offset.
fn go_on(store: &mut [u8], parcel: &[u8], to: usize, rows: &mut [u32], course: Course) -> Course {
    let from = course.numbers;
    if rows.len() < from {
        return course;
    }
    match take(store, parcel, &mut rows[from..]) {
        Ok(n) => Course {
            numbers: behind(from, n),
            refusal: None,
            named: None,
            ..course
        },
        Err(fault) => Course {
            numbers: behind(from, fault.rows),
            refusal: Some(fault.refusal),
            named: Some(to),
            ..course
        },
    }
}

// The first parcel up to an offset, the others of a size, until one is refused; a size of 0 is that of all that is left.
fn take_all(
    store: &mut [u8],
    interchange: &[u8],
    first: usize,
    size: usize,
    rows: &mut [u32],
    none: Course,
) -> Course {
    let front = bytes_of(interchange, Part { from: 0, to: first });
    let mut course = go_on(store, front, first, rows, none);
    let rest = interchange.get(first..).unwrap_or(&[]);
    let size = if size == 0 { interchange.len() } else { size };
    let mut to = first;
    for parcel in rest.chunks(size.max(1)) {
        if course.refusal.is_some() {
            return course;
        }
        to = to.saturating_add(parcel.len());
        course = go_on(store, parcel, to, rows, course);
    }
    course
}

// A course with another refusal, which no parcel named.
fn ended(course: Course, refusal: Refusal) -> Course {
    Course {
        refusal: Some(refusal),
        named: None,
        ..course
    }
}

// What the last call refuses: what a parcel named, where one did.
fn refused(course: Course, refusal: Refusal) -> Course {
    match course.refusal {
        None => ended(course, refusal),
        Some(before) if before == refusal => course,
        Some(_) => ended(course, differing(0)),
    }
}

// What the last call accepts: as many rows as there were.
fn accepted(course: Course, n: usize) -> Course {
    if course.refusal.is_some() {
        return ended(course, differing(1));
    }
    if behind(0, n) != course.numbers {
        return ended(course, differing(2));
    }
    course
}

fn read_cut(interchange: &[u8], wish: bool, first: usize, size: usize, rows: &mut [u32]) -> Course {
    let mut store = [0u8; STORE];
    // The store is as long as it has to be, so that nothing is refused.
    let _ = begin(&mut store, wish);
    let none = Course {
        wish,
        numbers: 0,
        refusal: None,
        named: None,
    };
    let course = take_all(&mut store, interchange, first, size, rows, none);
    match finish(&mut store) {
        Ok(n) => accepted(course, n),
        Err(refusal) => refused(course, refusal),
    }
}

fn have_same(a: &[u32], b: &[u32], n: usize) -> bool {
    n <= a.len() && n <= b.len() && a[..n] == b[..n]
}

fn is_same(a: Course, b: Course, rows: &[u32], other: &[u32]) -> bool {
    a.numbers == b.numbers && a.refusal == b.refusal && have_same(rows, other, a.numbers)
}

// Whether a way to cut an interchange gives the rows and the answer that one parcel gave.
fn agrees(
    interchange: &[u8],
    first: usize,
    size: usize,
    whole: Course,
    rows: &[u32],
    other: &mut [u32],
) -> bool {
    let course = read_cut(interchange, whole.wish, first, size, other);
    is_same(whole, course, rows, other)
}

// The first offset of some at which a cut differs, or the end of them.
fn first_other(
    interchange: &[u8],
    from: usize,
    to: usize,
    whole: Course,
    rows: &[u32],
    other: &mut [u32],
) -> usize {
    for at in from..to {
        if !agrees(interchange, at, 0, whole, rows, other)
            || !agrees(interchange, at, at, whole, rows, other)
        {
            return at;
        }
    }
    from.max(to)
}

fn print_differing(
    rt: &impl Print,
    interchange: &[u8],
    wish: bool,
    at: usize,
    rows: &mut [u32],
) -> io::Result<()> {
    say(rt, b"differs\t")?;
    say_number(rt, at)?;
    say(rt, b"\n")?;
    let once = read_cut(interchange, wish, at, 0, rows);
    print_course(rt, once, rows)?;
    let often = read_cut(interchange, wish, at, at, rows);
    print_course(rt, often, rows)
}

fn print_same(rt: &impl Print, from: usize, to: usize, named: Option<usize>) -> io::Result<()> {
    say(rt, b"same\t")?;
    say_number(rt, from)?;
    say(rt, b"\t")?;
    say_number(rt, to)?;
    let Some(named) = named else {
        return say(rt, b"\tend\n");
    };
    say(rt, b"\t")?;
    say_number(rt, named)?;
    say(rt, b"\n")
}

fn answer_ways(
    rt: &impl Print,
    interchange: &[u8],
    wish: bool,
    from: usize,
    to: usize,
) -> io::Result<()> {
    let mut rows = [0u32; 45000];
    let whole = read_cut(interchange, wish, interchange.len(), 0, &mut rows);
    print_course(rt, whole, &rows)?;
    let mut other = [0u32; 45000];
    let single = read_cut(interchange, wish, 1, 1, &mut other);
    if !is_same(whole, single, &rows, &other) {
        return print_differing(rt, interchange, wish, 1, &mut other);
    }
    let end = to.min(interchange.len());
    let at = first_other(interchange, from, end, whole, &rows, &mut other);
    if at < end {
        return print_differing(rt, interchange, wish, at, &mut other);
    }
    print_same(rt, from, at, single.named)
}

fn answer_cuts(rt: &impl Print, line: &[u8], wish: bool) -> io::Result<()> {
    let mut interchange = [0u8; 65536];
    let n = expand(piece_at(line, field(line, 3), b'\t'), &mut interchange);
    answer_ways(
        rt,
        bytes_of(&interchange, Part { from: 0, to: n }),
        wish,
        number(line, field(line, 1)),
        number(line, field(line, 2)),
    )
}

fn print_count(rt: &impl Print, n: usize) -> io::Result<()> {
    say(rt, b"rows\t")?;
    say_number(rt, n)?;
    say(rt, b"\n")
}

fn print_parcel(rt: &impl Print, answer: Result<usize, Fault>, rows: &[u32]) -> io::Result<()> {
    match answer {
        Ok(n) => {
            print_count(rt, n)?;
            print_rows(rt, rows, n)
        }
        Err(fault) => {
            print_refusal(rt, fault.refusal)?;
            print_rows(rt, rows, fault.rows)
        }
    }
}

fn take_in(
    rt: &impl Print,
    store: &mut [u8],
    parcel: &[u8],
    rows: &mut [u32],
    room: usize,
) -> io::Result<()> {
    if rows.len() < room {
        return Ok(());
    }
    let from = rows.len() - room;
    let lent = &mut rows[from..];
    let answer = take(store, parcel, lent);
    print_parcel(rt, answer, lent)
}

fn call_take(rt: &impl Print, word: &[u8], store: &mut [u8]) -> io::Result<()> {
    let mut parcel = [0u8; 65536];
    let n = expand(piece_at(word, past(word, 0, b'|'), b'\t'), &mut parcel);
    let mut rows = [0u32; 45000];
    say(rt, b"take\t")?;
    take_in(
        rt,
        store,
        bytes_of(&parcel, Part { from: 0, to: n }),
        &mut rows,
        number(word, 0),
    )
}

fn call_begin(rt: &impl Print, store: &mut [u8], wish: bool) -> io::Result<()> {
    say(rt, b"begin\t")?;
    let answer = begin(store, wish);
    print_parcel(rt, answer, &[0])
}

fn call_finish(rt: &impl Print, store: &mut [u8]) -> io::Result<()> {
    say(rt, b"finish\t")?;
    match finish(store) {
        Ok(n) => print_count(rt, n),
        Err(refusal) => print_refusal(rt, refusal),
    }
}

fn call(rt: &impl Print, word: &[u8], store: &mut [u8]) -> io::Result<()> {
    match word.first() {
        None => Ok(()),
        Some(b'b') => call_begin(rt, store, true),
        Some(b'n') => call_begin(rt, store, false),
        Some(b'f') => call_finish(rt, store),
        Some(_) => call_take(rt, word, store),
    }
}

fn call_all(rt: &impl Print, line: &[u8], store: &mut [u8]) -> io::Result<()> {
    for word in line.split(|&b| b == b'\t').skip(2) {
        call(rt, word, store)?;
    }
    Ok(())
}

fn answer_calls(rt: &impl Print, line: &[u8], store: &mut [u8], length: usize) -> io::Result<()> {
    if store.len() < length {
        return Ok(());
    }
    let from = store.len() - length;
    call_all(rt, line, &mut store[from..])
}

fn answer_line(rt: &impl Print, line: &[u8]) -> io::Result<()> {
    match line.first() {
        None => Ok(()),
        Some(b'#') => say_line(rt, line),
        Some(b'c') => answer_cuts(rt, line, true),
        Some(b'g') => answer_cuts(rt, line, false),
        Some(_) => {
            let mut store = [0u8; 12329];
            answer_calls(rt, line, &mut store, number(line, field(line, 1)))
        }
    }
}

fn answer_all(rt: &impl Print, text: &[u8]) -> io::Result<()> {
    for line in text.split(|&b| b == b'\n') {
        answer_line(rt, line)?;
    }
    Ok(())
}

fn main(rt: HostRuntime) -> io::Result<()> {
    let mut buffer = [0u8; 65536];
    let n = read_input(&mut rt.stdin(), &mut buffer)?;
    answer_all(&rt, &buffer[..n])
}
