//! What the printing program prints (document 01, "Printed whole"): the rows of a reading as a table, or the line of a refusal.
//! Each text is tested for room first; one for which there is none leaves the lent bytes as they were.

#![tactic(auto)]

ghost use Rattle.std.specs.Prelude.{◌≡◌, ◌+◌, ◌≤◌, leb, length, take};
ghost use Rattle.laws.specs.Put.{put_at};
ghost use Rattle.text.specs.Text.{pair_text, row_text, rows_text, table_text, refusal_text, written_answer, printed_answer};

use answers::Refusal;
use raw_bytes::{put_bytes, put_decimal, wide};

// The first n bytes, put at an offset.
fn put_first(out: &mut [u8], at: usize, bytes: &[u8], n: usize)
    requires { n ≤ length bytes.now }
    ensures { out.new ≡ put_at out.old at (take n bytes.now) }
{
    put_bytes(out, at, &bytes[0..n]);
}

// Two numbers parted by a tab, and what follows them; how many bytes they are.
fn put_pair(out: &mut [u8], at: usize, a: usize, b: usize, tail: &[u8]) -> usize
    requires { at + (41 + length tail.now) ≤ length out.old }
    ensures told { (result ≤ 41 + length tail.now) × (result ≡ length (pair_text a b tail.now)) }
    ensures left { out.new ≡ put_at out.old at (pair_text a b tail.now) }
{
    let i = put_decimal(out, at, a);
    put_bytes(out, at + i, b"\t");
    let j = put_decimal(out, at + i + 1, b);
    put_bytes(out, at + i + 1 + j, tail);
    i + 1 + j + tail.len()
}

// The text of a row, put at the front; how many bytes it has.
fn put_row(offset: u32, group: u32, tag: u32, out: &mut [u8]) -> usize
    requires { 46 ≤ length out.old }
    ensures told { (result ≤ 46) × (result ≡ length (row_text offset group tag)) }
    ensures left { take result out.new ≡ row_text offset group tag }
{
    let tail = [
        b'\t',
        (tag / 65536 % 256) as u8,
        (tag / 256 % 256) as u8,
        (tag % 256) as u8,
        b'\n',
    ];
    put_pair(out, 0, wide(offset), wide(group), &tail)
}

// Whether the text of the first n rows has at most as many bytes as there is room for.
fn fits(rows: &[u32], n: usize, room: usize) -> bool
    ensures { result ≡ leb (length (rows_text n rows.now)) room }
{
    let mut left = room;
    let mut rest = rows;
    for k in 0..n {
        let [offset, group, tag, further @ ..] = rest else {
            return true;
        };
        let mut row = [0u8; 46];
        let m = put_row(*offset, *group, *tag, &mut row);
        if left < m {
            return false;
        }
        left -= m;
        rest = further;
    }
    true
}

// The text of the first n rows, put at an offset where there is room for it; where it ends.
fn put_rows(rows: &[u32], n: usize, out: &mut [u8], at: usize) -> usize
    requires { at + length (rows_text n rows.now) ≤ length out.old }
    ensures told { result ≡ at + length (rows_text n rows.now) }
    ensures left { out.new ≡ put_at out.old at (rows_text n rows.now) }
{
    let mut to = at;
    let mut rest = rows;
    for k in 0..n {
        let [offset, group, tag, further @ ..] = rest else {
            return to;
        };
        let mut row = [0u8; 46];
        let m = put_row(*offset, *group, *tag, &mut row);
        put_first(out, to, &row, m);
        to += m;
        rest = further;
    }
    to
}

/// The table of the first n rows, each of three numbers (offset, group, tag); how many bytes it has, or that the lent bytes are too few.
pub fn write_table(rows: &[u32], n: usize, out: &mut [u8]) -> Option<usize>
    ensures told { written_answer result ≡ printed_answer (table_text n rows.now) out.old }
    ensures left { out.new ≡ put_at out.old 0 (table_text n rows.now) }
{
    if out.len() < 17 {
        return None;
    }
    if !fits(rows, n, out.len() - 17) {
        return None;
    }
    put_bytes(out, 0, b"offset\tgroup\ttag\n");
    Some(put_rows(rows, n, out, 17))
}

/// The line of a refusal: its number, its position and its part; how many bytes it has, or that the lent bytes are too few.
pub fn write_refusal(refusal: Refusal, out: &mut [u8]) -> Option<usize>
    ensures told { written_answer result ≡ printed_answer (refusal_text refusal) out.old }
    ensures left { out.new ≡ put_at out.old 0 (refusal_text refusal) }
{
    let mut line = [0u8; 72];
    put_bytes(&mut line, 0, b"refused\t");
    let n = put_pair(
        &mut line,
        8,
        refusal.number as usize,
        refusal.position,
        b"\t",
    );
    let k = put_decimal(&mut line, 8 + n, refusal.part as usize);
    put_bytes(&mut line, 8 + n + k, b"\n");
    if out.len() < 9 + n + k {
        return None;
    }
    put_first(out, 0, &line, 9 + n + k);
    Some(9 + n + k)
}
