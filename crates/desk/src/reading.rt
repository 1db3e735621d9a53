//! The services of a reading, for C.

ghost use Rattle.std.specs.Prelude.{◌≡◌, length};
ghost use Rattle.services.specs.Services.{next_service, periods_from};
ghost use Rattle.stages.specs.Stage.{first_outside, days_of};
ghost use Rattle.desk.specs.Services.{found_service, part_from, copied_answer, number_answer, number_output};
ghost use Rattle.desk.specs.Days.{inside_answer, inside_days, days_answer, days_bytes};
ghost use Rattle.desk.specs.Desk.{reply_of, day_date};

use crate::calendars::{Day, date_of};
use crate::{Reply, done, refused};
use answers::Reason;
use parts::{Part, bytes_of};
use service_entries::days_of;
use service_tests::test_window;

/// A service as C takes it, or that there is none more; then the rest is 0.
#[repr(C)]
#[derive(Clone, Copy)]
pub struct ServiceFound {
    pub found: bool,
    pub removal: bool,
    pub prd: usize,
    pub number_from: usize,
    pub number_to: usize,
    pub from: usize,
    pub to: usize,
}

/// The first service at row i or later, of the first n rows.
#[unsafe(no_mangle)]
pub extern "C" fn drumcallisto_next_service(
    s: &[u8],
    rows: &[u32],
    n: usize,
    i: usize,
) -> ServiceFound
    ensures { result ≡ found_service (next_service s.now rows.now n i) }
{
    match services::next_service(s, rows, n, i) {
        Some(service) => {
            let number = service.number;
            ServiceFound {
                found: true,
                removal: service.removal,
                prd: service.prd,
                number_from: number.from,
                number_to: number.to,
                from: service.from,
                to: service.to,
            }
        }
        None => ServiceFound {
            found: false,
            removal: false,
            prd: 0,
            number_from: 0,
            number_to: 0,
            from: 0,
            to: 0,
        },
    }
}

fn told(copied: Option<usize>) -> Reply
    ensures { result ≡ reply_of (copied_answer copied) }
{
    match copied {
        Some(n) => done(n),
        None => refused(Reason::OutputTooShort, 0),
    }
}

/// What stands between two offsets after release, to the front of a lent buffer: a service's number.
#[unsafe(no_mangle)]
pub extern "C" fn drumcallisto_number(s: &[u8], from: usize, to: usize, out: &mut [u8]) -> Reply
    ensures told { result ≡ reply_of (number_answer s.now (part_from from to) out.old) }
    ensures left { out.new ≡ number_output s.now (part_from from to) out.old }
{
    let part = Part { from, to };
    told(values::copy_plain(bytes_of(s, part), out))
}

/// Some of the rows: from one up to and without another.
#[repr(C)]
#[derive(Clone, Copy)]
pub struct Among {
    pub from: usize,
    pub to: usize,
}

// The days of the POPs among rows into a calendar of 64 bytes.
fn write_days(
    s: &[u8],
    rows: &[u32],
    among: Among,
    day: usize,
    wish: bool,
    days: &mut [u8],
) -> Reply
    requires { length days.old ≡ 64 }
    ensures told { result ≡ reply_of (inside_answer (first_outside wish day s.now (periods_from rows.now among.from among.to))) }
    ensures left { days.new ≡ inside_days (first_outside wish day s.now (periods_from rows.now among.from among.to)) (days_of wish day s.now (periods_from rows.now among.from among.to)) days.old }
{
    match test_window(day, s, rows, among.from, among.to, wish) {
        None => {
            let found = days_of(day, s, rows, among.from, among.to, wish);
            raw_bytes::put_bytes(days, 0, &found);
            done(0)
        }
        Some(at) => refused(Reason::OutsideWindow, at),
    }
}

/// The days of the POPs among some rows, over the window of 512 days from a first date on. The wish is whether the caller asks for the old reading of a
/// POP with neither form; else such a POP has no days, as any that is wrong.
#[unsafe(no_mangle)]
pub extern "C" fn drumcallisto_days(
    s: &[u8],
    rows: &[u32],
    among: Among,
    first: Day,
    wish: bool,
    days: &mut [u8],
) -> Reply
    ensures told { result ≡ reply_of (days_answer wish s.now (periods_from rows.now among.from among.to) (day_date first) days.old) }
    ensures left { days.new ≡ days_bytes wish s.now (periods_from rows.now among.from among.to) (day_date first) days.old }
{
    if days.len() != 64 {
        return refused(Reason::BadCalendar, 0);
    }
    let Some(day) = date_of(first).day_number() else {
        return refused(Reason::BadCalendar, 0);
    };
    write_days(s, rows, among, day, wish, days)
}
