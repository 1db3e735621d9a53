//! Rows in a buffer: three numbers each, offset, group and tag.

ghost use Rattle.std.specs.Prelude.{◌≡◌, ◌+◌, ◌*◌, ◌/◌, ◌≤◌, ◌<◌, length, get_or};
ghost use Rattle.services.specs.Rows.{offset_at, is_row, row_count, found_from};
ghost use Rattle.services.specs.Services.{is_period_row};
ghost use Rattle.services.specs.Extents.{ends_service, Reaches};

use crate::eights::{Sought, past_others};
use messages::{POP, PRD, UIT};

/// How far the rows of a service go.
#[derive(Clone, Copy)]
pub struct Extent {
    /// The row from which on no row is of group 2.
    pub own: usize,
    /// The row of the next service, or of the UIT.
    pub to: usize,
}

// How many of n rows the buffer holds.
pub(crate) fn row_count(rows: &[u32], n: usize) -> usize
    ensures { result ≡ row_count rows.now n }
{
    n.min(rows.len() / 3)
}

// The offset of row i.
pub(crate) fn offset_of(rows: &[u32], i: usize) -> usize
    ensures { result ≡ offset_at rows.now i }
{
    if i < rows.len() / 3 {
        return rows[3 * i] as usize;
    }
    0
}

// The group of row i.
fn group_of(rows: &[u32], i: usize) -> u32
    requires { i < length rows.now / 3 }
    ensures { result ≡ get_or rows.now (3 * i + 1) 0 }
{
    rows[3 * i + 1]
}

// Whether row i has a group and a tag.
fn is_row(rows: &[u32], i: usize, group: u32, tag: u32) -> bool
    requires { i < length rows.now / 3 }
    ensures { result ≡ is_row rows.now group tag i }
{
    if rows[3 * i + 2] != tag {
        return false;
    }
    rows[3 * i + 1] == group
}

// The first row from an index on and before row `to` that has a group and a tag.
pub(crate) fn first_row(rows: &[u32], from: usize, to: usize, group: u32, tag: u32) -> Option<usize>
    requires { to ≤ length rows.now / 3 }
    ensures { result ≡ found_from (is_row rows.now group tag) from to }
{
    for i in from..to {
        if is_row(rows, i, group, tag) {
            return Some(i);
        }
    }
    None
}

// The first POP of group 4 from a row on and before row `to`. The index moves by the rows that are passed, not by one.
pub(crate) fn period_row(rows: &[u32], from: usize, to: usize) -> Option<usize>
    requires { to ≤ length rows.now / 3 }
    ensures { result ≡ found_from (is_period_row rows.now) from to }
{
    // The tag of a POP with the same bits turned over is 0.
    let sought = Sought {
        column: 2,
        turned: POP,
        bound: 1,
    };
    let mut i = from;
    while i < to {
        i = past_others(rows, i, to, sought);
        if to <= i {
            return None;
        }
        if is_row(rows, i, 4, POP) {
            return Some(i);
        }
        i += 1;
    }
    None
}

// Whether the rows of a service before row i end there.
fn is_end(rows: &[u32], i: usize) -> bool
    requires { i < length rows.now / 3 }
    ensures { result ≡ ends_service rows.now i }
{
    if is_row(rows, i, 2, PRD) {
        return true;
    }
    is_row(rows, i, 0, UIT)
}

// How far the rows of a service go, from the one after its PRD's on, of n rows: one pass. The index moves by the rows that are passed.
pub(crate) fn reach_of(rows: &[u32], from: usize, n: usize) -> Extent
    requires { n ≤ length rows.now / 3 }
    ensures { Reaches rows.now from n result.own result.to }
{
    // Rows of groups inside the service are passed.
    let sought = Sought {
        column: 1,
        turned: 0,
        bound: 3,
    };
    let mut own = from;
    let mut i = from;
    while i < n {
        if group_of(rows, i) < 3 {
            if is_end(rows, i) {
                return Extent { own, to: i };
            }
            i += 1;
            own = i;
            continue;
        }
        i = past_others(rows, i + 1, n, sought);
    }
    Extent { own, to: i }
}
