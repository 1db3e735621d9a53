//! The tests of the services, against the room as it stands before the first of them enters.

#![tactic(auto)]

mod numbers;

ghost use Rattle.std.specs.Prelude.{◌≡◌, true, not, map, ◌≤◌, length, set, None};
ghost use Rattle.laws.specs.Choice.{both};
ghost use Rattle.syntax.specs.Segment.{body_at};
ghost use Rattle.period.specs.Period.{period_of};
ghost use Rattle.joining.specs.Joined.{in_window, days_joined, join_all};
ghost use Rattle.services.specs.Services as services;
ghost use Rattle.services.specs.Services.{number_fits, periods_fit, periods_from, has_period, services_of};
ghost use Rattle.stages.specs.Stage.{number_in, outside_by, first_outside, days_of};
ghost use Rattle.service_tests.specs.Tests.{totals_answer, unknown_by, adds, drops, removals, test_known, test_inside, test_all, no_totals, Counts};
ghost use Rattle.service_tests.specs.Marks.{mark_of, Marked};
ghost use Rattle.service_tests.specs.Orders.{orders_all};
ghost use Rattle.service_entries.specs.Room.{number_bytes, held_at, look_at};

use crate::numbers::{mark_of, set_mark};
use answers::{Reason, Refusal};
use calendar::Span;
use joining::{JoinError, join_at};
use parts::segment_at;
use period::{pop_at, read_period};
use service_entries::{Known, Number, held, put_order, read_number};
use services::{Periods, Service, Services, test_service};

/// What the services of an interchange come to.
#[derive(Clone, Copy, Default)]
pub struct Totals {
    /// How many there are.
    pub services: usize,
    /// How many records they add to the account's.
    pub added: usize,
    /// How many records they drop.
    pub dropped: usize,
    /// How many of them are removals.
    pub removals: usize,
}

// Whether days are not wholly in the window.
fn is_past(first: usize, days: Span) -> bool
    ensures { result ≡ not (in_window 512 first days.first days.count) }
{
    if days.first < first {
        return true;
    }
    if 512 < days.count {
        return true;
    }
    512 - days.count < days.first - first
}

// 13: whether the POP at an offset, whatever it says and wherever it ends, is not wholly in the window.
fn is_any_outside(first: usize, s: &[u8], at: usize, wish: bool) -> bool
    ensures { result ≡ outside_by first (period_of wish (body_at s.now at)) }
{
    match read_period(s, segment_at(s, at), wish) {
        Ok(period) => is_past(first, period.days),
        Err(_) => false,
    }
}

// 13: whether the POP at an offset is not wholly in the window.
fn is_outside(first: usize, s: &[u8], at: usize, wish: bool) -> bool
    ensures { result ≡ outside_by first (period_of wish (body_at s.now at)) }
{
    match pop_at(s, at, wish) {
        Some(pop) => is_past(first, pop.period.days),
        None => is_any_outside(first, s, at, wish),
    }
}

/// 13: the first POP among rows that is not wholly in the window; the wish is whether the caller asks for the old reading of a POP with neither form.
pub fn test_window(
    first: usize,
    s: &[u8],
    rows: &[u32],
    from: usize,
    to: usize,
    wish: bool,
) -> Option<usize>
    ensures { result ≡ first_outside wish first s.now (periods_from rows.now from to) }
{
    for at in Periods::among(rows, from, to) {
        if is_outside(first, s, at, wish) {
            return Some(at);
        }
    }
    None
}

// What the POPs of a service come to: the first that is not wholly in the window, and whether there is any POP.
#[derive(Clone, Copy)]
struct Walk {
    outside: Option<usize>,
    carries: bool,
}

// The same, and the days of a service over the window, where none of its POPs goes past it.
#[derive(Clone, Copy)]
struct Days {
    walk: Walk,
    days: [u8; 64],
}

// 13: joins the days of the POP at an offset into a calendar of the window; whether it is not wholly in the window. The POPs of an accepted reading
// are good, so that the old reading says the same of them.
fn join_one(days: &mut [u8], first: usize, s: &[u8], at: usize) -> bool
    requires { length days.old ≡ 64 }
    ensures told { result ≡ outside_by first (period_of true (body_at s.now at)) }
    ensures left { days.new ≡ days_joined true days.old first (body_at s.now at) }
{
    match join_at(days, first, s, at, true) {
        Err(JoinError::Outside) => true,
        Ok(()) => false,
        Err(JoinError::WrongPeriod(_)) => false,
    }
}

// The same for the POPs among rows, up to the first that is not: each is read once, to be tested and joined.
fn join_window(
    days: &mut [u8],
    first: usize,
    s: &[u8],
    rows: &[u32],
    from: usize,
    to: usize,
) -> Walk
    requires { length days.old ≡ 64 }
    ensures told { (result.outside ≡ first_outside true first s.now (periods_from rows.now from to)) × (result.carries ≡ has_period rows.now from to) }
    ensures left { result.outside ≡ None → days.new ≡ join_all true days.old first (map (body_at s.now) (periods_from rows.now from to)) }
{
    let mut carries = false;
    for at in Periods::among(rows, from, to) {
        carries = true;
        if join_one(days, first, s, at) {
            return Walk {
                outside: Some(at),
                carries,
            };
        }
    }
    Walk {
        outside: None,
        carries,
    }
}

// The same into a calendar of its own.
fn join_days(first: usize, s: &[u8], rows: &[u32], from: usize, to: usize) -> Days
    ensures told { (result.walk.outside ≡ first_outside true first s.now (periods_from rows.now from to)) × (result.walk.carries ≡ has_period rows.now from to) }
    ensures left { result.walk.outside ≡ None → result.days ≡ days_of true first s.now (periods_from rows.now from to) }
{
    let mut days = [0u8; 64];
    let walk = join_window(&mut days, first, s, rows, from, to);
    Days { walk, days }
}

// How many records a service adds: a put of a number that has none.
fn added_by(removal: bool, held: Option<Known>) -> usize
    ensures { (result ≡ adds removal held) × (result ≤ 1) }
{
    usize::from(!removal && held.is_none())
}

// How many records a service drops: a removal of one that has nothing live.
fn dropped_by(removal: bool, held: Option<Known>) -> usize
    ensures { (result ≡ drops removal held) × (result ≤ 1) }
{
    usize::from(removal && held.is_some_and(|known| !known.live))
}

// 14: whether a service removes a number of which an account holds no record, or whose removal is pending.
fn is_unknown(removal: bool, held: Option<Known>) -> bool
    ensures { result ≡ both removal (unknown_by held) }
{
    removal && held.is_none_or(|known| known.removal_pending)
}

// Tests a service for 14, and counts it.
fn test_known(
    room: &[u8],
    number: [u8; 10],
    service: Service,
    totals: Totals,
) -> Result<Totals, Refusal>
    requires { Counts totals }
    ensures { totals_answer result ≡ test_known service.removal service.prd (held_at room.now number) totals }
{
    let known = held(room, number);
    if is_unknown(service.removal, known) {
        return Err(Reason::UnknownService.at(service.prd));
    }
    Ok(Totals {
        services: totals.services + 1,
        added: totals.added + added_by(service.removal, known),
        dropped: totals.dropped + dropped_by(service.removal, known),
        removals: totals.removals + usize::from(service.removal),
    })
}

// 11: whether the number is wrong, or a POP is missing or present wrongly.
fn is_wrong(removal: bool, length: usize, carries: bool) -> bool
    ensures { result ≡ not (both (number_fits length) (periods_fit removal carries)) }
{
    if length < 1 {
        return true;
    }
    if 10 < length {
        return true;
    }
    if removal {
        return carries;
    }
    !carries
}

// Tests a service for 11, then for 12: `marks` has the marks of the numbers before it, and then its own too. A number whose mark is new is
// that of no service before it, so that few are compared.
fn test_number(
    marks: &mut [u8],
    s: &[u8],
    rows: &[u32],
    service: Service,
    number: Number,
    carries: bool,
) -> Result<(), Refusal>
    requires { Marked marks.old s.now rows.now service.from × ((number.bytes ≡ number_bytes (number_in s.now service)) × (number.length ≡ length (number_in s.now service))) × (carries ≡ has_period rows.now service.from service.to) }
    ensures told { services.tested_answer result ≡ services.tested_of s.now rows.now service }
    ensures left { marks.new ≡ set marks.old (mark_of (number_in s.now service)) 1 }
{
    let bytes = number.bytes;
    if set_mark(marks, mark_of(bytes)) {
        return test_service(s, rows, service);
    }
    if is_wrong(service.removal, number.length, carries) {
        return Err(Reason::WrongService.at(service.prd));
    }
    Ok(())
}

// Tests a service that passes 11 and 12 for 13 and 14, and counts it.
fn test_one(
    room: &[u8],
    number: [u8; 10],
    service: Service,
    outside: Option<usize>,
    totals: Totals,
) -> Result<Totals, Refusal>
    requires { Counts totals }
    ensures { totals_answer result ≡ test_inside outside (test_known service.removal service.prd (held_at room.now number) totals) }
{
    if let Some(at) = outside {
        return Err(Reason::OutsideWindow.at(at));
    }
    test_known(room, number, service, totals)
}

/// Tests the services of n rows in order, all against the room as it stands, and keeps an order for each that passes: what they come to, or the
/// first refusal, 11, 12, 13 or 14.
pub fn test_all(
    orders: &mut [u8],
    room: &[u8],
    first: usize,
    s: &[u8],
    rows: &[u32],
    n: usize,
) -> Result<Totals, Refusal>
    ensures told { totals_answer result ≡ test_all first s.now rows.now (look_at room.now) (services_of s.now rows.now n) no_totals }
    ensures left { orders.new ≡ orders_all first s.now rows.now (look_at room.now) (services_of s.now rows.now n) no_totals orders.old }
{
    let mut marks = [0u8; 16384];
    let mut totals = Totals::default();
    for service in Services::of(s, rows, n) {
        let number = read_number(s, service.number);
        let joined = join_days(first, s, rows, service.from, service.to);
        let walk = joined.walk;
        test_number(&mut marks, s, rows, service, number, walk.carries)?;
        let more = test_one(room, number.bytes, service, walk.outside, totals)?;
        put_order(
            orders,
            totals.services,
            number.bytes,
            service.removal,
            joined.days,
        );
        totals = more;
    }
    Ok(totals)
}
