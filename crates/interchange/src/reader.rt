//! The whole reader: a fold of one step over the segments of an interchange.

ghost use Rattle.std.specs.Prelude.{◌≡◌, ◌+◌, ◌*◌, ◌≤◌, ◌<◌, length};
ghost use Rattle.placing.specs.Tables as placing;
ghost use Rattle.hints.specs.Hints as hinting;
ghost use Rattle.steps.specs.State.{opening_state};
ghost use Rattle.interchange.specs.Reader.{reading_of, read_answer, outcome_answer, rows_after};
ghost use Rattle.interchange.specs.Room.{least_bytes};
ghost use Rattle.interchange.specs.Chunks.{whole_from};
ghost use Rattle.interchange.specs.Answers.{Behind};

use crate::gather::{Gathered, gather};
use crate::rows::copy_rows;
use crate::run::ROOM;
use crate::standing::Standing;
use answers::{Reason, Refusal};
use hints::tables::hints;
use segment_tables::tables;
use steps::state::State;

// Each call but the last reads 500 bytes at least, so that so many are enough for 60,000.
const CALLS: usize = 121;

/// Reads an interchange and writes its rows, three numbers each, to the front of a lent buffer. The wish is whether the caller asks for the
/// old reading of a POP with neither form. An accepted one gives how many rows were written, any other a refusal, 3 to 10 or 17. A refusal leaves the buffer as it was, and what stands past the rows stays too.
pub fn read(interchange: &[u8], wish: bool, rows: &mut [u32]) -> Result<usize, Refusal>
    ensures told { read_answer result ≡ outcome_answer (reading_of wish interchange.now) (length rows.old) }
    ensures left { rows.new ≡ rows_after (reading_of wish interchange.now) rows.old }
{
    if interchange.len() == 0 {
        return Err(Reason::BadSize.at(0));
    }
    if 60000 < interchange.len() {
        return Err(Reason::BadSize.at(0));
    }
    read_sized(interchange, wish, rows)
}

// The reading from where it stands on. Each call gathers some rows in a room of its own, has the rest read, and writes its rows
// only where all is accepted: a refusal leaves the lent buffer as it was.
fn read_on(
    s: &[u8],
    from: Standing,
    tables: &[[u32; 8]],
    hints: &[[u16; 16]],
    rows: &mut [u32],
    calls: usize,
) -> Result<usize, Refusal>
    requires { (tables.now ≡ placing.tables) × (hints.now ≡ hinting.hints) × (length s.now ≤ 60000) × (from.at ≤ length s.now) × (4 * from.numbers ≤ 3 * from.at) × (length s.now < from.at + least_bytes * calls) }
    ensures { Behind from.numbers (whole_from s.now from.state from.at) rows.old (read_answer result) rows.new }
{
    let st = from.state;
    let behind = from.numbers;
    let mut room = [0u32; ROOM];
    let gathered = gather(s, st, from.at, tables, hints, &mut room)?;
    match gathered {
        Gathered::Numbers(n) => {
            if rows.len() < behind + n {
                return Err(Reason::OutputTooShort.at(0));
            }
            copy_rows(&room, n, rows, behind);
            Ok((behind + n) / 3)
        }
        Gathered::Full(full) => {
            let n = full.numbers;
            let rest = Standing {
                numbers: behind + n,
                ..full
            };
            let m = read_on(s, rest, tables, hints, rows, calls - 1)?;
            copy_rows(&room, n, rows, behind);
            Ok(m)
        }
    }
}

// The same for an interchange of 1 to 60,000 bytes.
fn read_sized(s: &[u8], wish: bool, rows: &mut [u32]) -> Result<usize, Refusal>
    requires { length s.now ≤ 60000 }
    ensures told { read_answer result ≡ outcome_answer (whole_from s.now (opening_state wish) 0) (length rows.old) }
    ensures left { rows.new ≡ rows_after (whole_from s.now (opening_state wish) 0) rows.old }
{
    let all = tables();
    let hinted = hints();
    let start = Standing {
        state: State::opening(wish),
        at: 0,
        numbers: 0,
    };
    read_on(s, start, &all, &hinted, rows, CALLS)
}
