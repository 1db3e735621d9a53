//! Rows as numbers in a buffer: three each, offset, group and tag.

ghost use Rattle.std.specs.Prelude.{◌≡◌, ◌+◌, ◌<◌, ◌≤◌, length, take};
ghost use Rattle.laws.specs.Put.{put_at};
ghost use Rattle.interchange.specs.Laws.{put_row};

use steps::state::Row;

// A row behind those that stand.
pub(crate) fn put_row(to: &mut [u32], at: usize, offset: u32, row: Row)
    requires { (at + 2 < length to.old) × (offset ≡ row.offset) }
    ensures { to.new ≡ put_row to.old at row }
{
    to[at] = offset;
    to[at + 1] = row.group;
    to[at + 2] = row.tag;
}

// The first n numbers of one buffer into another, from an index on.
pub(crate) fn copy_rows(from: &[u32], n: usize, to: &mut [u32], at: usize)
    requires { (n ≤ length from.now) × (at + n ≤ length to.old) }
    ensures { to.new ≡ put_at to.old at (take n from.now) }
{
    to[at..at + n].copy_from_slice(&from[..n]);
}
