//! The contents of the four service segments: UIB, UIH, UIT, UIZ.
//! Each function takes a segment's own bytes, from its tag up to and without its terminator.

#![tactic(auto)]

ghost use Rattle.std.specs.Prelude.{◌≡◌, true, ℕ, ◌≤◌, length, take, [], ◌∷◌};
ghost use Rattle.laws.specs.Choice.{all};
ghost use Rattle.laws.specs.Decimal.{decimal_of};
ghost use Rattle.syntax.specs.Bytes.{plain};
ghost use Rattle.parts.specs.Places.{present};
ghost use Rattle.values.specs.Values.{same_text};
ghost use Rattle.envelope.specs.Envelope.{value_of, place_of, typed, typed_12b, uib_of, uih_of, trailer_of, uit_of, uiz_of, opening_answer, headed_answer, trailer_answer, uib_answer, uih_answer, uit_answer, uiz_answer};
ghost use Rattle.envelope.specs.Laws.{occurrence_found};
ghost use Rattle.envelope.specs.Ways.{besides_release};
ghost use Rattle.envelope.specs.Written.{begins_with, besides, opened_of, written_of};

use messages::MessageType;
use parts::Part;

/// What a good UIH says.
#[derive(Clone, Copy)]
pub struct Head {
    pub message: MessageType,
    /// Where the reference 0340 stands in the segment.
    pub reference: Part,
}

/// What is wrong with a UIH.
#[derive(Clone, Copy, PartialEq, Eq, Debug)]
pub enum HeadError {
    /// 7: a part that must be present is absent.
    Missing,
    /// 8: another type or directory.
    Unknown,
}

// Whether a part says the first n of the digits.
fn says_first(part: &[u8], digits: &[u8], n: usize) -> bool
    requires { n ≤ length digits.now }
    ensures { result ≡ same_text (plain part.now) (take n digits.now) }
{
    values::equals(part, &digits[0..n])
}

// Whether a part is written as the digits of a number, compared from the last on. Where it is not it may still say them, with releases.
fn is_digits(part: &[u8], n: usize) -> bool
    ensures { result ≡ true → same_text (plain part.now) (decimal_of n) ≡ true }
{
    if 20 < part.len() {
        return false;
    }
    let mut i = part.len();
    let mut left = n;
    // The index goes down with the digits that are left, and tells at the last of them whether it is the part's first byte.
    while 0 < i {
        i -= 1;
        if part[i] != 48 + (left % 10) as u8 {
            return false;
        }
        if left < 10 {
            return i == 0;
        }
        left /= 10;
    }
    false
}

/// Whether a part says a number in decimal digits, with no leading zero.
pub fn is_decimal(part: &[u8], n: usize) -> bool
    ensures { result ≡ same_text (plain part.now) (decimal_of n) }
{
    if is_digits(part, n) {
        return true;
    }
    let mut digits = [0u8; 20];
    let count = raw_bytes::put_decimal(&mut digits, 0, n);
    says_first(part, &digits, count)
}

// Where component c of element e stands, in its first occurrence.
fn place(segment: &[u8], e: usize, c: usize) -> Part
    ensures { result ≡ place_of segment.now e c }
{
    let whole = Part {
        from: 0,
        to: segment.len(),
    };
    parts::part_at(segment, whole, e, 1, c)
}

// Component c of element e, in its first occurrence, as written.
fn value(segment: &[u8], e: usize, c: usize) -> &[u8]
    ensures { result.now ≡ value_of segment.now e c }
{
    parts::bytes_of(segment, place(segment, e, c))
}

// Where the first occurrence of element e stands.
fn occurrence(segment: &[u8], e: usize) -> Part
    ensures { result ≡ occurrence_found segment.now e }
{
    let whole = Part {
        from: 0,
        to: segment.len(),
    };
    parts::occurrence(segment, parts::element(segment, whole, e), 1)
}

// Component c of the first element as written, its first occurrence found: an element may be long, and most of it not read.
fn value_in(segment: &[u8], found: Part, c: usize) -> &[u8]
    requires { found ≡ occurrence_found segment.now 1 }
    ensures { result.now ≡ value_of segment.now 1 c }
{
    parts::bytes_of(segment, parts::component(segment, found, c))
}

// Whether a part has a byte.
fn is_present(part: &[u8]) -> bool
    ensures { result ≡ present part.now }
{
    0 < part.len()
}

// Whether a segment begins with the given bytes.
fn begins(segment: &[u8], text: &[u8]) -> bool
    ensures { result ≡ begins_with segment.now text.now }
{
    segment.starts_with(text)
}

// Where the first component of the next element stands, from an index on: mostly a `+` is there.
fn behind(segment: &[u8], at: usize) -> Part
    ensures { result ≡ besides at segment.now }
{
    let to = segment.len();
    if at < to && segment[at] == b'+' {
        return parts::component_from(segment, at + 1, to);
    }
    parts::part_at(segment, Part { from: at, to }, 1, 1, 1)
}

// A UIB that begins as most are written: only its dialogue reference may be missing.
fn open_written(segment: &[u8]) -> Option<Part>
    ensures { result ≡ opened_of segment.now }
{
    let dialogue = behind(segment, 10);
    if dialogue.is_absent() {
        return None;
    }
    Some(dialogue)
}

// A UIB written in any way, part by part.
fn open_any(segment: &[u8]) -> Option<Part>
    ensures { result ≡ uib_of segment.now }
{
    if !values::equals(value(segment, 1, 1), b"UNOB") {
        return None;
    }
    if !values::equals(value(segment, 1, 2), b"4") {
        return None;
    }
    let dialogue = place(segment, 2, 1);
    if dialogue.is_absent() {
        return None;
    }
    Some(dialogue)
}

/// Where the dialogue reference of a UIB stands in the segment. None is 7: another beginning than `UNOB:4`, or no dialogue reference.
pub fn read_uib(segment: &[u8]) -> Option<Part>
    ensures uib { result ≡ uib_of segment.now }
    ensures said { (at : ℕ) → opening_answer at result ≡ uib_answer at segment.now }
{
    if begins(segment, b"UIB+UNOB:4+") {
        return open_written(segment);
    }
    open_any(segment)
}

// Whether the parts of S306 that must be present are.
fn is_complete(message_type: &[u8], version: &[u8], release: &[u8], agency: &[u8]) -> bool
    ensures { result ≡ all present (message_type.now ∷ version.now ∷ release.now ∷ agency.now ∷ []) }
{
    if !is_present(message_type) {
        return false;
    }
    if !is_present(version) {
        return false;
    }
    if !is_present(release) {
        return false;
    }
    is_present(agency)
}

// Whether the parts of S306 that are the same in every directory are right: all after the type but the release.
fn is_directory(version: &[u8], sub_function: &[u8], agency: &[u8]) -> bool
    ensures { result ≡ besides_release version.now sub_function.now agency.now }
{
    if !values::equals(version, b"D") {
        return false;
    }
    if is_present(sub_function) {
        return false;
    }
    values::equals(agency, b"UN")
}

// The message of a type of D.04A whose reference stands at a place.
fn message(message_type: &[u8], reference: Part) -> Result<Head, HeadError>
    ensures { result ≡ typed message_type.now reference }
{
    if values::equals(message_type, b"SKDUPD") {
        return Ok(Head {
            message: MessageType::Skdupd,
            reference,
        });
    }
    if values::equals(message_type, b"TSDUPD") {
        return Ok(Head {
            message: MessageType::Tsdupd,
            reference,
        });
    }
    Err(HeadError::Unknown)
}

// The same of D.12B, in which TSDUPD alone is taken.
fn message_12b(message_type: &[u8], reference: Part) -> Result<Head, HeadError>
    ensures { result ≡ typed_12b message_type.now reference }
{
    if !values::equals(message_type, b"TSDUPD") {
        return Err(HeadError::Unknown);
    }
    Ok(Head {
        message: MessageType::Tsdupd12B,
        reference,
    })
}

// A UIH that begins as most are written: only its reference may be missing.
fn read_written(segment: &[u8], message: MessageType) -> Result<Head, HeadError>
    ensures { result ≡ written_of message segment.now }
{
    let reference = behind(segment, 20);
    if reference.is_absent() {
        return Err(HeadError::Missing);
    }
    Ok(Head { message, reference })
}

// A UIH written in any way, part by part.
fn read_any(segment: &[u8]) -> Result<Head, HeadError>
    ensures { result ≡ uih_of segment.now }
{
    let reference = place(segment, 2, 1);
    if reference.is_absent() {
        return Err(HeadError::Missing);
    }
    let identifier = occurrence(segment, 1);
    let message_type = value_in(segment, identifier, 1);
    let version = value_in(segment, identifier, 2);
    let release = value_in(segment, identifier, 3);
    let agency = value_in(segment, identifier, 5);
    if !is_complete(message_type, version, release, agency) {
        return Err(HeadError::Missing);
    }
    if !is_directory(version, value_in(segment, identifier, 4), agency) {
        return Err(HeadError::Unknown);
    }
    if values::equals(release, b"04A") {
        return message(message_type, reference);
    }
    if values::equals(release, b"12B") {
        return message_12b(message_type, reference);
    }
    Err(HeadError::Unknown)
}

/// The type and the reference of a message, or what is wrong with its UIH.
pub fn read_uih(segment: &[u8]) -> Result<Head, HeadError>
    ensures uih { result ≡ uih_of segment.now }
    ensures said { (at : ℕ) → headed_answer at result ≡ uih_answer at segment.now }
{
    if begins(segment, b"UIH+SKDUPD:D:04A::UN+") {
        return read_written(segment, MessageType::Skdupd);
    }
    if begins(segment, b"UIH+TSDUPD:D:04A::UN+") {
        return read_written(segment, MessageType::Tsdupd);
    }
    if begins(segment, b"UIH+TSDUPD:D:12B::UN+") {
        return read_written(segment, MessageType::Tsdupd12B);
    }
    read_any(segment)
}

// Whether two parts say the same; mostly they are written alike.
fn says_same(a: &[u8], b: &[u8]) -> bool
    ensures { result ≡ same_text (plain a.now) (plain b.now) }
{
    if a.len() == b.len() && begins(a, b) {
        return true;
    }
    values::same(a, b)
}

// Where the first component of a trailer's first element stands.
fn repeated_at(segment: &[u8]) -> Part
    ensures { result ≡ place_of segment.now 1 1 }
{
    if begins(segment, b"UIT+") {
        return behind(segment, 3);
    }
    if begins(segment, b"UIZ+") {
        return behind(segment, 3);
    }
    place(segment, 1, 1)
}

// Whether a trailer repeats a reference, given as it was written, and gives a count.
fn check_trailer(segment: &[u8], reference: &[u8], count: usize) -> bool
    ensures { result ≡ trailer_of segment.now reference.now count }
{
    let first = repeated_at(segment);
    if first.is_absent() {
        return false;
    }
    if !says_same(parts::bytes_of(segment, first), reference) {
        return false;
    }
    let counted = parts::bytes_of(segment, behind(segment, first.to));
    if !is_present(counted) {
        return false;
    }
    is_decimal(counted, count)
}

/// Whether a UIT repeats the 0340 of its UIH and gives the number of the message's segments.
pub fn check_uit(segment: &[u8], reference: &[u8], segments: usize) -> bool
    ensures uit { result ≡ uit_of segment.now reference.now segments }
    ensures said { (at : ℕ) → trailer_answer at result ≡ uit_answer at segment.now reference.now segments }
{
    check_trailer(segment, reference, segments)
}

/// Whether a UIZ gives the dialogue reference of the UIB and the number of messages.
pub fn check_uiz(segment: &[u8], dialogue: &[u8], messages: usize) -> bool
    ensures uiz { result ≡ uiz_of segment.now dialogue.now messages }
    ensures said { (at : ℕ) → trailer_answer at result ≡ uiz_answer at segment.now dialogue.now messages }
{
    check_trailer(segment, dialogue, messages)
}
