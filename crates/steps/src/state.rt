//! Where a reading stands: numbers only, by value.

ghost use Rattle.std.specs.Prelude.{◌≡◌};
ghost use Rattle.steps.specs.State.{one_more, opening_state, opened_state, headed_state, onward_state, ended_state, closed_state, moved_state, with_state};

use messages::MessageType;
use parts::Part;
use placing::Place;

/// What may come next.
#[derive(Clone, Copy, PartialEq, Eq, Debug)]
pub enum Phase {
    /// The UIB.
    Opening,
    /// A UIH, or the UIZ.
    Between,
    /// A segment of the message.
    Inside,
    /// Nothing.
    Closed,
}

/// A reading after some whole segments.
#[derive(Clone, Copy)]
pub struct State {
    pub phase: Phase,
    /// The message's type.
    pub message: MessageType,
    /// Whether the caller asks for the old reading, in which a POP with neither form means every day. It stands beside the other small fields, so
    /// that a state takes no more room for it.
    pub wish: bool,
    /// Messages that are ended.
    pub messages: usize,
    /// Segments of the message, its UIH counted.
    pub segments: usize,
    /// The offset of the UIB, and the dialogue reference in it.
    pub opened_at: usize,
    pub dialogue: Part,
    /// The offset of the message's UIH, and its reference 0340 in it.
    pub headed_at: usize,
    pub reference: Part,
    pub place: Place,
}

/// A row of the reading.
#[derive(Clone, Copy)]
pub struct Row {
    pub offset: usize,
    pub group: u32,
    pub tag: u32,
}

/// What a good segment comes to: the next state, and the segment's row.
#[derive(Clone, Copy)]
pub struct Step {
    pub state: State,
    pub row: Row,
}

/// One more, up to 65,535, which no interchange reaches.
pub fn one_more(n: usize) -> usize
    ensures { result ≡ one_more n }
{
    if n < 65535 { n + 1 } else { n }
}

impl State {
    /// Before the first byte.
    pub fn opening(wish: bool) -> Self
        ensures { result ≡ opening_state wish }
    {
        let place = Place::start();
        State {
            phase: Phase::Opening,
            message: MessageType::Skdupd,
            wish,
            messages: 0,
            segments: 0,
            opened_at: 0,
            dialogue: Part { from: 0, to: 0 },
            headed_at: 0,
            reference: Part { from: 0, to: 0 },
            place,
        }
    }

    // The UIB at an offset has come.
    pub(crate) fn opened(self, at: usize, dialogue: Part) -> Self
        ensures { result ≡ opened_state self at dialogue }
    {
        State {
            phase: Phase::Between,
            opened_at: at,
            dialogue,
            ..self
        }
    }

    // A UIH at an offset has come.
    pub(crate) fn headed(self, at: usize, message: MessageType, reference: Part) -> Self
        ensures { result ≡ headed_state self at message reference }
    {
        State {
            phase: Phase::Inside,
            message,
            segments: 1,
            headed_at: at,
            reference,
            place: Place::start(),
            ..self
        }
    }

    // Another phase, other counts and another place; what was written is as it was.
    fn with(self, phase: Phase, messages: usize, segments: usize, place: Place) -> Self
        ensures { result ≡ with_state self phase messages segments place }
    {
        State {
            phase,
            messages,
            segments,
            place,
            ..self
        }
    }

    // A segment of the message is placed.
    pub(crate) fn onward(self, place: Place) -> Self
        ensures { result ≡ onward_state self place }
    {
        self.with(Phase::Inside, self.messages, one_more(self.segments), place)
    }

    /// Some segments of the message are placed.
    pub fn moved(self, place: Place, segments: usize) -> Self
        ensures { result ≡ moved_state self place segments }
    {
        let phase = self.phase;
        self.with(phase, self.messages, segments, place)
    }

    // The message's UIT has come.
    pub(crate) fn ended(self, place: Place) -> Self
        ensures { result ≡ ended_state self place }
    {
        let messages = one_more(self.messages);
        let segments = one_more(self.segments);
        self.with(Phase::Between, messages, segments, place)
    }

    // The UIZ has come.
    pub(crate) fn closed(self) -> Self
        ensures { result ≡ closed_state self }
    {
        let place = self.place;
        self.with(Phase::Closed, self.messages, self.segments, place)
    }
}
