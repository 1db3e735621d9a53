//! Rows passed eight at a time: one test says that none of eight is looked for.

ghost use Rattle.std.specs.Prelude.{◌≡◌, ◌+◌, ◌-◌, ◌/◌, ◌≤◌, ◌<◌, length};
ghost use Rattle.services.specs.Inner.{key_of, Passes};

/// Rows that are looked for by one of their three numbers: its key is the number with some bits turned over, and is below a bound.
#[derive(Clone, Copy)]
pub struct Sought {
    /// Which of the three numbers.
    pub column: usize,
    pub turned: u32,
    pub bound: u32,
}

// The key of row i.
fn key_of(rows: &[u32], i: usize, sought: Sought) -> u32
    requires { (i < length rows.now / 3) × (sought.column < 3) }
    ensures { result ≡ key_of rows.now sought.column sought.turned i }
{
    rows[3 * i + sought.column] ^ sought.turned
}

// The least key of four rows.
fn least_of_four(rows: &[u32], i: usize, sought: Sought) -> u32
    requires { (i + 4 ≤ length rows.now / 3) × (sought.column < 3) }
    ensures { Passes (key_of rows.now sought.column sought.turned) result i (i + 4) }
{
    let a = key_of(rows, i, sought).min(key_of(rows, i + 1, sought));
    let b = key_of(rows, i + 2, sought).min(key_of(rows, i + 3, sought));
    a.min(b)
}

// The least key of eight rows.
fn least_of_eight(rows: &[u32], i: usize, sought: Sought) -> u32
    requires { (i + 8 ≤ length rows.now / 3) × (sought.column < 3) }
    ensures { Passes (key_of rows.now sought.column sought.turned) result i (i + 8) }
{
    let a = least_of_four(rows, i, sought);
    let b = least_of_four(rows, i + 4, sought);
    a.min(b)
}

// Row i if it is looked for, else a later row, before which none is from the next one on.
fn sooner(rows: &[u32], i: usize, sought: Sought, later: usize) -> usize
    requires { (i < length rows.now / 3) × (sought.column < 3) × Passes (key_of rows.now sought.column sought.turned) sought.bound (i + 1) later }
    ensures { Passes (key_of rows.now sought.column sought.turned) sought.bound i result }
{
    if key_of(rows, i, sought) < sought.bound {
        i
    } else {
        later
    }
}

// The first row that is looked for of eight, or the last of them; with no branch.
fn first_of_eight(rows: &[u32], i: usize, sought: Sought) -> usize
    requires { (i + 8 ≤ length rows.now / 3) × (sought.column < 3) }
    ensures { Passes (key_of rows.now sought.column sought.turned) sought.bound i result }
{
    let seventh = sooner(rows, i + 6, sought, i + 7);
    let sixth = sooner(rows, i + 5, sought, seventh);
    let fifth = sooner(rows, i + 4, sought, sixth);
    let fourth = sooner(rows, i + 3, sought, fifth);
    let third = sooner(rows, i + 2, sought, fourth);
    let second = sooner(rows, i + 1, sought, third);
    sooner(rows, i, sought, second)
}

// A row behind those, before row `to`, from which on the buffer holds eight.
fn end_of_eights(rows: &[u32], to: usize) -> usize
    ensures { result ≤ length rows.now / 3 - 7 }
{
    to.min((rows.len() / 3).saturating_sub(7))
}

// Past rows that are not looked for. It reads on behind row `to`, so that few rows are left for a walk one by one. The index moves by eight.
fn past_eights(rows: &[u32], from: usize, to: usize, sought: Sought) -> usize
    requires { sought.column < 3 }
    ensures { Passes (key_of rows.now sought.column sought.turned) sought.bound from result }
{
    let end = end_of_eights(rows, to);
    let mut i = from;
    while i < end {
        if least_of_eight(rows, i, sought) < sought.bound {
            return first_of_eight(rows, i, sought);
        }
        i += 8;
    }
    i
}

// Past rows that are not looked for, and not past row `to`.
pub(crate) fn past_others(rows: &[u32], from: usize, to: usize, sought: Sought) -> usize
    requires { (from ≤ to) × (sought.column < 3) }
    ensures { Passes (key_of rows.now sought.column sought.turned) sought.bound from result × (result ≤ to) }
{
    past_eights(rows, from, to, sought).min(to)
}
