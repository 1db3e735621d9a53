//! The services of an accepted interchange, one by one, and the tests 11 and 12 (document 01, "The register", Stage).
//! The rows are those that the reader wrote: three numbers each, offset, group and tag. Any other numbers do no harm.

#![tactic(auto)]

mod eights;
mod numbers;
mod rows;
mod segments;

ghost use Rattle.std.specs.Prelude.{◌≡◌, ◌/◌, ◌≤◌, ◌<◌, length};
ghost use Rattle.std.specs.Iterator.{YieldsFirst, item_count};
ghost use Rattle.services.specs.Services.{removes, service_at, next_service, next_period, has_period, is_wrong, is_twice, tested_of, counted_of, services_of, periods_from, tested_answer, counted_answer};
ghost use Rattle.services.specs.Walks.{services_left, periods_left};

use crate::numbers::number_fits;
use crate::rows::{first_row, offset_of, period_row, reach_of, row_count};
use crate::segments::{number_at, says_number, says_removal};
use answers::{Reason, Refusal};
use messages::{MSD, PRD};
use parts::{Part, bytes_of};

/// A service: a group 2 of a SKDUPD message.
#[derive(Clone, Copy)]
pub struct Service {
    /// The offset of its PRD.
    pub prd: usize,
    /// Where its number stands in the interchange, as written.
    pub number: Part,
    /// Whether it is a removal; else it is a put.
    pub removal: bool,
    /// Its rows, from the PRD's up to and without another.
    pub from: usize,
    pub to: usize,
}

/// The row of a POP, and its offset.
#[derive(Clone, Copy)]
pub struct PopRow {
    pub row: usize,
    pub offset: usize,
}

// Whether the rows of a service, after its PRD's, have an MSD that removes.
fn is_removal(s: &[u8], rows: &[u32], from: usize, to: usize) -> bool
    requires { to ≤ length rows.now / 3 }
    ensures { result ≡ removes s.now rows.now from to }
{
    match first_row(rows, from, to, 2, MSD) {
        Some(k) => says_removal(s, offset_of(rows, k)),
        None => false,
    }
}

// The service whose PRD has the row k, of n rows.
fn service_at(s: &[u8], rows: &[u32], n: usize, k: usize) -> Service
    requires { (k < n) × (n ≤ length rows.now / 3) }
    ensures { result ≡ service_at s.now rows.now n k }
{
    let reach = reach_of(rows, k + 1, n);
    let prd = offset_of(rows, k);
    let number = number_at(s, prd);
    let removal = is_removal(s, rows, k + 1, reach.own);
    Service {
        prd,
        number,
        removal,
        from: k,
        to: reach.to,
    }
}

/// The first service at row i or later, of the first n rows.
pub fn next_service(s: &[u8], rows: &[u32], n: usize, i: usize) -> Option<Service>
    ensures { result ≡ next_service s.now rows.now n i }
{
    let count = row_count(rows, n);
    let k = first_row(rows, i, count, 2, PRD)?;
    Some(service_at(s, rows, count, k))
}

/// The services of some rows, one by one.
#[derive(Drop)]
pub struct Services<'a> {
    s: &'a [u8],
    rows: &'a [u32],
    n: usize,
    // The row from which on they are left.
    i: usize,
}

impl<'a> Iterator for Services<'a> {
    type Item = Service;

    ghost next_gives = { YieldsFirst services_left };

    ghost remaining = { item_count services_left };

    fn next(&mut self) -> Option<Service> {
        let service = next_service(self.s, self.rows, self.n, self.i)?;
        self.i = service.to;
        Some(service)
    }
}

impl<'a> Services<'a> {
    /// The services of the first n rows, in order.
    pub fn of(s: &'a [u8], rows: &'a [u32], n: usize) -> Services<'a>
        ensures { services_left result ≡ services_of s.now rows.now n }
    {
        Services { s, rows, n, i: 0 }
    }
}

/// The first POP of group 4 at row i or later and before row `to`.
pub fn next_period(rows: &[u32], i: usize, to: usize) -> Option<PopRow>
    ensures { result ≡ next_period rows.now i to }
{
    let count = row_count(rows, to);
    let row = period_row(rows, i, count)?;
    Some(PopRow {
        row,
        offset: offset_of(rows, row),
    })
}

/// The POPs of group 4 among some rows, one by one: the offset of each.
#[derive(Drop)]
pub struct Periods<'a> {
    rows: &'a [u32],
    to: usize,
    // The row from which on they are left.
    i: usize,
}

impl<'a> Iterator for Periods<'a> {
    type Item = usize;

    ghost next_gives = { YieldsFirst periods_left };

    ghost remaining = { item_count periods_left };

    fn next(&mut self) -> Option<usize> {
        let pop = next_period(self.rows, self.i, self.to)?;
        self.i = pop.row + 1;
        Some(pop.offset)
    }
}

impl<'a> Periods<'a> {
    /// The POPs of group 4 from a row on and before row `to`, in order.
    pub fn among(rows: &'a [u32], from: usize, to: usize) -> Periods<'a>
        ensures { periods_left result ≡ periods_from rows.now from to }
    {
        Periods { rows, to, i: from }
    }
}

// Whether a POP stands among rows.
fn has_period(rows: &[u32], from: usize, to: usize) -> bool
    ensures { result ≡ has_period rows.now from to }
{
    let count = row_count(rows, to);
    period_row(rows, from, count).is_some()
}

/// 11: whether the number is wrong, or a POP is missing or present wrongly.
pub fn is_wrong(s: &[u8], rows: &[u32], service: Service) -> bool
    ensures { result ≡ is_wrong s.now rows.now service }
{
    let number = service.number;
    if !number_fits(bytes_of(s, number)) {
        return true;
    }
    let carries = has_period(rows, service.from, service.to);
    if service.removal {
        return carries;
    }
    !carries
}

/// 12: whether a service before row `before` has the given number.
pub fn is_twice(s: &[u8], rows: &[u32], number: &[u8], before: usize) -> bool
    ensures { result ≡ is_twice s.now rows.now number.now before }
{
    let count = row_count(rows, before);
    let mut i = 0;
    while let Some(k) = first_row(rows, i, count, 2, PRD) {
        if says_number(s, offset_of(rows, k), number) {
            return true;
        }
        i = k + 1;
    }
    false
}

/// Tests a service for 11, then for 12: the refusal, if it is not good.
pub fn test_service(s: &[u8], rows: &[u32], service: Service) -> Result<(), Refusal>
    ensures { tested_answer result ≡ tested_of s.now rows.now service }
{
    let prd = service.prd;
    if is_wrong(s, rows, service) {
        return Err(Reason::WrongService.at(prd));
    }
    let number = service.number;
    if is_twice(s, rows, bytes_of(s, number), service.from) {
        return Err(Reason::NumberTwice.at(prd));
    }
    Ok(())
}

/// Tests the services of the first n rows in order, each for 11, then for 12: how many there are, or the first refusal.
pub fn test_services(s: &[u8], rows: &[u32], n: usize) -> Result<usize, Refusal>
    ensures { counted_answer result ≡ counted_of s.now rows.now n }
{
    let mut count = 0;
    for service in Services::of(s, rows, n) {
        test_service(s, rows, service)?;
        count += 1;
    }
    Ok(count)
}
