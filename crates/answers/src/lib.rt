//! Document 01's table of numbers: its definitions, what a refusal is, and why a call refuses.

#![tactic(auto)]

ghost use Rattle.std.specs.Prelude.{◌≡◌};
ghost use Rattle.answers.specs.Answers.{naming};
ghost use Rattle.answers.specs.Reasons.{number_of};

/// What is refused, and where; of number 10 also which part of the POP is wrong.
#[derive(Clone, Copy, PartialEq, Eq, Debug)]
pub struct Refusal {
    pub number: u8,
    pub position: usize,
    /// Dates 1, day string 2, weekdays 3, both forms 4, neither form 5, anything else 6; 0 beside every number but 10.
    pub part: u8,
}

/// Why a call refuses: a row of the table.
#[derive(Clone, Copy, PartialEq, Eq, Debug)]
pub enum Reason {
    /// The buffer is not a register; for opening, its length is wrong.
    NotRegister = 1,
    /// The account is not 1 to 8.
    BadAccount = 2,
    /// The interchange is empty or over 60,000 bytes.
    BadSize = 3,
    /// A byte is not permitted.
    ByteNotPermitted = 4,
    /// The input ends inside a segment.
    InputEnds = 5,
    /// The tag, or a segment limit.
    WrongSegment = 6,
    /// Envelope order, contents, counts, or bytes after the UIZ.
    WrongEnvelope = 7,
    /// The type or the directory is not known.
    UnknownType = 8,
    /// A segment is out of place.
    OutOfPlace = 9,
    /// What a POP says.
    WrongPeriod = 10,
    /// The number of a service, or its POP missing or present wrongly.
    WrongService = 11,
    /// A service number twice in the interchange.
    NumberTwice = 12,
    /// A period is not wholly in the window.
    OutsideWindow = 13,
    /// The removal of an unknown service.
    UnknownService = 14,
    /// More records than the quota at the end.
    OverQuota = 15,
    /// Nothing is pending to withdraw; there is no k-th record.
    NothingThere = 16,
    /// The lent output is too short.
    OutputTooShort = 17,
    /// The quotas, the first date or the window of a register to open.
    BadOpening = 18,
    /// The calendar to write.
    BadCalendar = 19,
    /// The calendar has no weekday form.
    NoWeekdayForm = 20,
    /// A segment is over 4,096 bytes with its terminator.
    SegmentTooLong = 21,
}

impl Reason {
    /// The refusal that names it, at a position and with no part of a POP.
    pub fn at(self, position: usize) -> Refusal
        ensures { result ≡ naming (number_of self) position }
    {
        Refusal {
            number: self as u8,
            position,
            part: 0,
        }
    }
}
