//! A POP of SKDUPD's group 4: the days on which a service runs, read from the segment's parts.

#![tactic(auto)]

mod any;
mod dated;
mod elements;
mod forms;
mod runs;
mod spans;
mod strings;
mod written;

ghost use Rattle.std.specs.Prelude.{◌≡◌, ℕ, Some, Ok};
ghost use Rattle.syntax.specs.Segment.{segment_at};
ghost use Rattle.parts.specs.Places.{bytes_of};
ghost use Rattle.period.specs.Period.{suffices, period_of, period_answer, pop_answer, fault_number, pop_at, pop_from};

use crate::any::read_any;
use crate::written::read_written;
use calendar::Span;
pub use elements::part_of;
use parts::Part;
pub use runs::day_runs;
pub use strings::are_days;
use syntax::segment::read_segment;

/// What tells the days of a period.
#[derive(Clone, Copy, PartialEq, Eq, Debug)]
pub enum Form {
    /// Neither form is given and the caller asks for the old reading: every day runs.
    Every,
    /// The day string, 4440.
    ByString,
    /// The weekdays, 2160.
    ByWeekdays,
}

impl Form {
    // Whether it tells the days to a caller with a wish: a form that is given does, and none at all to one who asks for the old reading.
    fn suffices(self, wish: bool) -> bool
        ensures { result ≡ suffices wish self }
    {
        match self {
            Form::Every => wish,
            Form::ByString => true,
            Form::ByWeekdays => true,
        }
    }
}

/// Which part of a POP is wrong; where several are, the first of these.
#[derive(Clone, Copy, PartialEq, Eq, Debug)]
pub enum Fault {
    BadDates,
    BadDayString,
    BadWeekdays,
    BothForms,
    /// Where the caller does not ask for the old reading.
    NeitherForm,
    BadRest,
}

impl Fault {
    /// The number of the part that is wrong, 1 to 6.
    pub fn number(self) -> u8
        ensures { result ≡ fault_number self }
    {
        match self {
            Fault::BadDates => 1,
            Fault::BadDayString => 2,
            Fault::BadWeekdays => 3,
            Fault::BothForms => 4,
            Fault::NeitherForm => 5,
            Fault::BadRest => 6,
        }
    }
}

/// What a POP says: its days, and what tells those that run.
#[derive(Clone, Copy)]
pub struct Period {
    pub days: Span,
    pub form: Form,
}

/// A whole segment that says a good period: the terminator's index, and what it says.
#[derive(Clone, Copy)]
pub struct Pop {
    pub end: usize,
    pub period: Period,
}

impl Pop {
    fn new(end: usize, days: Span, form: Form) -> Pop
        ensures { Some result ≡ pop_from end days.first days.count form }
    {
        Pop {
            end,
            period: Period { days, form },
        }
    }
}

/// The period that a POP gives, the segment without its terminator. The wish is whether the caller asks for the old reading, in which a POP
/// with neither form means every day.
pub fn read_period(s: &[u8], segment: Part, wish: bool) -> Result<Period, Fault>
    ensures period { result ≡ period_of wish (bytes_of s.now segment) }
    ensures said { (at : ℕ) → period_answer at result ≡ pop_answer wish at (bytes_of s.now segment) }
{
    read_any(s, segment, wish)
}

// The POP of a whole segment, written in any way.
fn read_whole(s: &[u8], at: usize, end: usize, wish: bool) -> Option<Pop>
    requires { segment_at s.now at ≡ Ok end }
    ensures { result ≡ pop_at wish s.now at }
{
    let period = read_any(s, Part { from: at, to: end }, wish).ok()?;
    Some(Pop { end, period })
}

// The POP at an offset, written in any way.
fn read_pop(s: &[u8], at: usize, wish: bool) -> Option<Pop>
    ensures { result ≡ pop_at wish s.now at }
{
    match read_segment(s, at) {
        Ok(end) => read_whole(s, at, end, wish),
        Err(_) => None,
    }
}

/// The POP at an offset, where a whole segment stands there that says a good period. What a POP in a usual form says tells where it ends, so
/// that its bytes are looked at once.
pub fn pop_at(s: &[u8], at: usize, wish: bool) -> Option<Pop>
    ensures { result ≡ pop_at wish s.now at }
{
    let Some(pop) = read_written(s, at) else {
        return read_pop(s, at, wish);
    };
    if pop.period.form.suffices(wish) {
        return Some(pop);
    }
    None
}
