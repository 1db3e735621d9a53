//! The store of a reading: what it keeps between two parcels, as numbers by value and as bytes.

#![tactic(auto)]

ghost use Rattle.std.specs.Prelude.{◌≡◌, ◌≤◌, ◌%◌, ◌/◌};
ghost use Rattle.laws.specs.Put.{put_at};
ghost use Rattle.parcel_store.specs.Store.{number_in, phase_of, message_of, final_of, length_of, place_in, state_in, kept_in, phase_number, message_number, flag_number, answer_number, answer_position, answer_part, state_head, other_with};
ghost use Rattle.steps.specs.Parts.{is_part};

use answers::Refusal;
use messages::MessageType;
use parts::Part;
use placing::Place;
use raw_bytes::{number_at, put_bytes};
use steps::state::{Phase, State};

/// The bytes of a store: 20 numbers, then the dialogue reference, the reference 0340, and the segment that is arriving, 4,096 bytes for each.
pub const STORE: usize = 12328;

/// Where the dialogue reference stands.
pub const DIALOGUE: usize = 40;

/// Where the reference 0340 stands.
pub const REFERENCE: usize = 4136;

/// Where the segment that is arriving stands.
pub const BODY: usize = 8232;

/// The final answer. Three outcomes by their names: an Option of a Result with nothing in it would say them less plainly.
#[derive(Clone, Copy, PartialEq, Eq, Debug)]
pub enum Final {
    /// It is still to come.
    Awaited,
    Accepted,
    Refused(Refusal),
}

/// The numbers of a store.
#[derive(Clone, Copy)]
pub struct Kept {
    /// After the whole segments.
    pub state: State,
    /// Where the segment begins that is arriving.
    pub offset: usize,
    /// How many of its bytes have come, and whether the next one is released.
    pub body: usize,
    pub released: bool,
    /// The lengths of the dialogue reference and of the reference 0340.
    pub dialogue: usize,
    pub reference: usize,
    /// The rows given out.
    pub count: usize,
    pub answer: Final,
}

fn phase_of(n: usize) -> Phase
    ensures { result ≡ phase_of n }
{
    match n {
        0 => Phase::Opening,
        1 => Phase::Between,
        2 => Phase::Inside,
        _ => Phase::Closed,
    }
}

fn message_of(n: usize) -> MessageType
    ensures { result ≡ message_of n }
{
    match n {
        0 => MessageType::Skdupd,
        2 => MessageType::Tsdupd12B,
        _ => MessageType::Tsdupd,
    }
}

// Whether a part may stand beside a number: one of six beside 10, else 0.
fn is_part(number: usize, part: usize) -> bool
    ensures { result ≡ is_part number part }
{
    if number == 10 {
        1 <= part && part <= 6
    } else {
        part == 0
    }
}

// No other number than those of the table is an answer, and no other part.
fn final_of(number: usize, position: usize, part: usize) -> Final
    ensures { result ≡ final_of number position part }
{
    match number {
        0 => Final::Awaited,
        1 => Final::Accepted,
        2..=21 if is_part(number, part) => Final::Refused(Refusal {
            number: number as u8,
            position,
            part: part as u8,
        }),
        _ => Final::Awaited,
    }
}

// No more bytes than there is room for.
fn length_of(n: usize) -> usize
    ensures { (result ≡ length_of n) × (result ≤ 4096) }
{
    n.min(4096)
}

// A count of the place.
fn count_at(store: &[u8], at: usize) -> u32
    ensures { result ≡ number_in store.now at }
{
    number_at(store, at) as u32
}

fn place_in(store: &[u8]) -> Place
    ensures { result ≡ place_in store.now }
{
    Place {
        row: number_at(store, 8),
        c0: count_at(store, 10),
        c1: count_at(store, 12),
        c2: count_at(store, 14),
        c3: count_at(store, 16),
        c4: count_at(store, 18),
    }
}

fn state_in(store: &[u8]) -> State
    ensures { result ≡ state_in store.now }
{
    State {
        phase: phase_of(number_at(store, 0)),
        message: message_of(number_at(store, 2)),
        messages: number_at(store, 4),
        segments: number_at(store, 6),
        opened_at: 0,
        dialogue: Part { from: 0, to: 0 },
        headed_at: 0,
        reference: Part { from: 0, to: 0 },
        place: place_in(store),
        wish: number_at(store, 38) == 1,
    }
}

/// What a store keeps, whatever its bytes are.
pub fn load(store: &[u8]) -> Kept
    ensures { result ≡ kept_in store.now }
{
    Kept {
        state: state_in(store),
        offset: number_at(store, 20),
        body: length_of(number_at(store, 22)),
        released: number_at(store, 24) == 1,
        dialogue: length_of(number_at(store, 26)),
        reference: length_of(number_at(store, 28)),
        count: number_at(store, 30),
        answer: final_of(
            number_at(store, 32),
            number_at(store, 34),
            number_at(store, 36),
        ),
    }
}

// The two bytes of a number, each by itself: twenty stand in one array, which pairs from `to_le_bytes` would have to be joined into.
fn low(n: usize) -> u8
    ensures { result ≡ n % 256 }
{
    (n % 256) as u8
}

fn high(n: usize) -> u8
    ensures { result ≡ n / 256 % 256 }
{
    (n / 256 % 256) as u8
}

fn phase_number(phase: Phase) -> usize
    ensures { result ≡ phase_number phase }
{
    match phase {
        Phase::Opening => 0,
        Phase::Between => 1,
        Phase::Inside => 2,
        Phase::Closed => 3,
    }
}

fn message_number(message: MessageType) -> usize
    ensures { result ≡ message_number message }
{
    match message {
        MessageType::Skdupd => 0,
        MessageType::Tsdupd => 1,
        MessageType::Tsdupd12B => 2,
    }
}

fn flag_number(b: bool) -> usize
    ensures { result ≡ flag_number b }
{
    b as usize
}

// The numbers of an answer: a refusal's own, else 0 or 1.
fn answer_numbers(answer: Final) -> Refusal
    ensures { (result.number ≡ answer_number answer) × (result.position ≡ answer_position answer) × (result.part ≡ answer_part answer) }
{
    match answer {
        Final::Awaited => Refusal {
            number: 0,
            position: 0,
            part: 0,
        },
        Final::Accepted => Refusal {
            number: 1,
            position: 0,
            part: 0,
        },
        Final::Refused(refusal) => refusal,
    }
}

// Ten numbers of a state.
fn state_head(st: State) -> [u8; 20]
    ensures { result ≡ state_head st }
{
    let phase = phase_number(st.phase);
    let message = message_number(st.message);
    let place = st.place;
    let c0 = place.c0 as usize;
    let c1 = place.c1 as usize;
    let c2 = place.c2 as usize;
    let c3 = place.c3 as usize;
    let c4 = place.c4 as usize;
    [
        low(phase),
        high(phase),
        low(message),
        high(message),
        low(st.messages),
        high(st.messages),
        low(st.segments),
        high(st.segments),
        low(place.row),
        high(place.row),
        low(c0),
        high(c0),
        low(c1),
        high(c1),
        low(c2),
        high(c2),
        low(c3),
        high(c3),
        low(c4),
        high(c4),
    ]
}

// The ten others.
fn other_head(kept: Kept) -> [u8; 20]
    ensures { result ≡ other_with kept }
{
    let released = flag_number(kept.released);
    let answer = answer_numbers(kept.answer);
    let number = answer.number as usize;
    let part = answer.part as usize;
    let wish = flag_number(kept.state.wish);
    [
        low(kept.offset),
        high(kept.offset),
        low(kept.body),
        high(kept.body),
        low(released),
        high(released),
        low(kept.dialogue),
        high(kept.dialogue),
        low(kept.reference),
        high(kept.reference),
        low(kept.count),
        high(kept.count),
        low(number),
        high(number),
        low(answer.position),
        high(answer.position),
        low(part),
        high(part),
        low(wish),
        high(wish),
    ]
}

/// Writes the numbers of a store.
pub fn save(store: &mut [u8], kept: Kept)
    ensures { store.new ≡ put_at (put_at store.old 0 (state_head kept.state)) 20 (other_with kept) }
{
    put_bytes(store, 0, &state_head(kept.state));
    put_bytes(store, 20, &other_head(kept));
}
