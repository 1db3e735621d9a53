//! Where a reading stands between its segments.

ghost use Rattle.std.specs.Prelude.{◌≡◌};
ghost use Rattle.interchange.specs.Reader.{is_closed};
ghost use Rattle.interchange.specs.Runs.{is_inside};
ghost use Rattle.interchange.specs.Stretch.{same_phase};

use steps::state::{Phase, State};

/// The state, the offset of the next segment, and how many numbers are gathered before it.
#[derive(Clone, Copy)]
pub(crate) struct Standing {
    pub state: State,
    pub at: usize,
    pub numbers: usize,
}

/// Whether nothing may come next.
pub fn is_closed(phase: Phase) -> bool
    ensures { result ≡ is_closed phase }
{
    matches!(phase, Phase::Closed)
}

/// Whether a segment of a message comes next.
pub fn is_inside(phase: Phase) -> bool
    ensures { result ≡ is_inside phase }
{
    matches!(phase, Phase::Inside)
}

pub(crate) fn is_same(phase: Phase, other: Phase) -> bool
    ensures { result ≡ same_phase phase other }
{
    phase == other
}
