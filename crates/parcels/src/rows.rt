//! Rows as they are given out: their offsets are those of the whole interchange.

ghost use Rattle.std.specs.Prelude.{◌≡◌, ◌≤◌, ◌<◌, ◌%◌, length, take};
ghost use Rattle.laws.specs.Put.{put_at};
ghost use Rattle.parcels.specs.Rows.{raised, raised_number};

// An offset counted from a base.
fn raised_by(offset: u32, base: usize) -> u32
    requires { base < 65536 }
    ensures { result ≡ raised_number base offset }
{
    ((offset as usize + base) % 4294967296) as u32
}

/// Puts the rows of n numbers at an index, their offsets counted from a base; where there is no room for all of them, none is put.
pub(crate) fn put_rows(from: &[u32], n: usize, rows: &mut [u32], at: usize, base: usize)
    requires { (n ≤ length from.now) × (n % 3 ≡ 0) × (base < 65536) }
    ensures { rows.new ≡ put_at rows.old at (raised base (take n from.now)) }
{
    if rows.len() < n {
        return;
    }
    if rows.len() - n < at {
        return;
    }
    for row in 0..n / 3 {
        let i = 3 * row;
        rows[at + i] = raised_by(from[i], base);
        rows[at + i + 1] = from[i + 1];
        rows[at + i + 2] = from[i + 2];
    }
}
