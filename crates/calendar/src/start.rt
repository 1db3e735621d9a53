//! What both written forms begin with.

ghost use Rattle.std.specs.Prelude.{◌≡◌};
ghost use Rattle.laws.specs.Put.{put_at};
ghost use Rattle.calendar.specs.Written.{start};

use dates::Date;

// POP+273:first/last at the front, where there is room for it.
pub(crate) fn put_start(first: Date, last: Date, out: &mut [u8])
    ensures { out.new ≡ put_at out.old 0 (start first last) }
{
    if out.len() < 29 {
        return;
    }
    raw_bytes::put_bytes(out, 0, b"POP+273:");
    let from = first.text();
    raw_bytes::put_bytes(out, 8, &from);
    raw_bytes::put_bytes(out, 18, b"/");
    let to = last.text();
    raw_bytes::put_bytes(out, 19, &to);
}
