//! The lines that show one record of an account's room, on any bytes of a room. Document 01, "The register".

#![tactic(auto)]

ghost use Rattle.std.specs.Prelude.{◌≡◌, ◌++◌, ◌∷◌, [], ◌+◌, ◌≤◌, length, take};
ghost use Rattle.std.proofs.Math.Option.{some};
ghost use Rattle.laws.specs.Put.{put_at};
ghost use Rattle.calendar.specs.Written.{day_characters};
ghost use Rattle.contents.specs.Written.{up_to_zero, live_in, pending_in, record_in};
ghost use Rattle.contents.specs.Calls.{live_line, pending_line, shown_answer, shown_bytes};
ghost use Rattle.shown.specs.Shown.{record_of, lines_answer};

const SLOT: usize = 140;

const NUMBER: usize = 10;

// The window's days, a character for each.
const DAYS: usize = 512;

/// Why no record is shown; nothing was written.
#[derive(Clone, Copy, PartialEq, Eq, Debug)]
pub enum LinesError {
    /// There is no such record.
    NoRecord,
    /// The output is too short.
    TooShort,
}

// How many bytes stand before the first zero.
fn before_zero(text: &[u8]) -> usize
    ensures { result ≡ length (up_to_zero text.now) }
{
    for i in 0..text.len() {
        if text[i] == 0 {
            return i;
        }
    }
    text.len()
}

// One line at an offset: number, mark, the first n days, newline.
fn put_line(out: &mut [u8], at: usize, number: &[u8], mark: &[u8], days: &[u8], n: usize)
    requires { at + length number.now + length mark.now + n + 1 ≤ length out.old }
    ensures { out.new ≡ put_at out.old at (number.now ++ (mark.now ++ (day_characters days.now 0 n ++ (10 ∷ [])))) }
{
    let second = at + number.len();
    let third = second + mark.len();
    raw_bytes::put_bytes(out, at, number);
    raw_bytes::put_bytes(out, second, mark);
    calendar::put_days(days, n, out, third);
    raw_bytes::put_bytes(out, third + n, b"\n");
}

// How long the line of what is live is, 0 if nothing is.
fn live_length(slot: &[u8], number: &[u8]) -> usize
    requires { (length slot.now ≡ 140) × (length number.now ≤ 10) }
    ensures { result ≡ length (live_line number.now (live_in slot.now)) }
{
    if slot[10] == 0 {
        return 0;
    }
    number.len() + 519
}

fn pending_length(slot: &[u8], number: &[u8]) -> usize
    requires { (length slot.now ≡ 140) × (length number.now ≤ 10) }
    ensures { result ≡ length (pending_line number.now (pending_in slot.now)) }
{
    if slot[75] == 0 {
        return 0;
    }
    if slot[75] == 1 {
        return number.len() + 518;
    }
    number.len() + 6
}

fn put_live(slot: &[u8], number: &[u8], out: &mut [u8])
    requires { (length slot.now ≡ 140) × (length (live_line number.now (live_in slot.now)) ≤ length out.old) }
    ensures { out.new ≡ put_at out.old 0 (live_line number.now (live_in slot.now)) }
{
    if slot[10] == 0 {
        return;
    }
    put_line(out, 0, number, b"\tlive\t", &slot[11..75], DAYS);
}

fn put_pending(slot: &[u8], number: &[u8], out: &mut [u8], at: usize)
    requires { (length slot.now ≡ 140) × (at + length (pending_line number.now (pending_in slot.now)) ≤ length out.old) }
    ensures { out.new ≡ put_at out.old at (pending_line number.now (pending_in slot.now)) }
{
    if slot[75] == 0 {
        return;
    }
    if slot[75] == 1 {
        put_line(out, at, number, b"\tput\t", &slot[76..140], DAYS);
        return;
    }
    put_line(out, at, number, b"\tdel\t", &slot[76..140], 0);
}

// The lines of a slot's record: what is live first.
fn show_slot(slot: &[u8], number: &[u8], out: &mut [u8]) -> Result<usize, LinesError>
    requires { (length slot.now ≡ 140) × (number.now ≡ up_to_zero (take 10 slot.now)) }
    ensures told { lines_answer result ≡ shown_answer out.old (some (record_in slot.now)) }
    ensures left { out.new ≡ shown_bytes out.old (some (record_in slot.now)) }
{
    let live = live_length(slot, number);
    let pending = pending_length(slot, number);
    if out.len() < live + pending {
        return Err(LinesError::TooShort);
    }
    put_live(slot, number, out);
    put_pending(slot, number, out, live);
    Ok(live + pending)
}

/// Writes the lines of the k-th slot's record, from 0, to the front of an output; answers how many bytes they are.
pub fn show_record(room: &[u8], k: usize, out: &mut [u8]) -> Result<usize, LinesError>
    ensures told { lines_answer result ≡ shown_answer out.old (record_of room.now k) }
    ensures left { out.new ≡ shown_bytes out.old (record_of room.now k) }
{
    if room.len() / SLOT <= k {
        return Err(LinesError::NoRecord);
    }
    let at = k * SLOT;
    if room[at] == 0 {
        return Err(LinesError::NoRecord);
    }
    let number_end = at + NUMBER;
    let end = at + SLOT;
    let number = before_zero(&room[at..number_end]);
    let text_end = at + number;
    show_slot(&room[at..end], &room[at..text_end], out)
}
