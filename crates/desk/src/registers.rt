//! The register's calls, for C.

ghost use Rattle.std.specs.Prelude.{◌≡◌};
ghost use Rattle.contents.specs.Written.{is_register};
ghost use Rattle.contents.specs.Calls.{release_of, withdraw_of, show_answer, show_bytes, answer_on, bytes_after, output_after, open_answer, open_bytes};
ghost use Rattle.register.specs.Register.{opened_answer, account_answer, released_answer, withdrawn_answer, record_answer};
ghost use Rattle.stages.specs.Stage.{stage_of};
ghost use Rattle.staging.specs.Room.{staged_answer};
ghost use Rattle.desk.specs.Desk.{reply_of, day_date};

use crate::calendars::{Day, date_of};
use crate::{Reply, done, refused, replied};
use answers::Reason;
use register::{AccountError, OpenError, ShowError, WithdrawError};
use shown::LinesError;
use staging::StageError;

/// Whether a buffer is a register.
#[unsafe(no_mangle)]
pub extern "C" fn drumcallisto_is_register(b: &[u8]) -> bool
    ensures { result ≡ is_register b.now }
{
    checking::is_register(b)
}

#[tactic(auto, unfolding(register::specs::Register::opened_answer))]
fn opened(answer: Result<(), OpenError>) -> Reply
    ensures { result ≡ reply_of (opened_answer answer) }
{
    match answer {
        Ok(()) => done(0),
        Err(OpenError::WrongLength) => refused(Reason::NotRegister, 0),
        Err(OpenError::BadOpening) => refused(Reason::BadOpening, 0),
    }
}

/// Opens a register over a buffer: window and quotas, no records.
#[unsafe(no_mangle)]
pub extern "C" fn drumcallisto_open(b: &mut [u8], first: Day, quotas: &[u32; 8]) -> Reply
    ensures told { result ≡ reply_of (open_answer b.old (day_date first) quotas.now) }
    ensures left { b.new ≡ open_bytes b.old (day_date first) quotas.now }
{
    opened(register::open(b, date_of(first), *quotas))
}

fn staged(answer: Result<usize, StageError>) -> Reply
    ensures { result ≡ reply_of (staged_answer answer) }
{
    match answer {
        Ok(n) => done(n),
        Err(StageError::NotRegister) => refused(Reason::NotRegister, 0),
        Err(StageError::NoAccount) => refused(Reason::BadAccount, 0),
        Err(StageError::Refused(refusal)) => replied(refusal),
    }
}

/// The services of an interchange become pending, all of them or none. The wish is whether the caller asks for the old reading of a POP with neither form.
#[unsafe(no_mangle)]
pub extern "C" fn drumcallisto_stage(
    b: &mut [u8],
    account: usize,
    interchange: &[u8],
    wish: bool,
) -> Reply
    ensures told { result ≡ reply_of (answer_on b.old account (λ v. (stage_of wish interchange.now v).answer)) }
    ensures left { b.new ≡ bytes_after b.old account (λ v. (stage_of wish interchange.now v).records) }
{
    staged(staging::stage(b, account, interchange, wish))
}

// The reply of a call that finds no register, or no such account in it.
#[tactic(auto, unfolding(register::specs::Register::account_answer))]
fn no_account(reason: AccountError) -> Reply
    ensures { result ≡ reply_of (account_answer reason) }
{
    match reason {
        AccountError::NotRegister => refused(Reason::NotRegister, 0),
        AccountError::BadAccount => refused(Reason::BadAccount, 0),
    }
}

#[tactic(auto, unfolding(register::specs::Register::released_answer, register::specs::Register::account_answer))]
fn released(answer: Result<usize, AccountError>) -> Reply
    ensures { result ≡ reply_of (released_answer answer) }
{
    match answer {
        Ok(n) => done(n),
        Err(reason) => no_account(reason),
    }
}

/// Makes every pending entry of an account live, or takes its record out.
#[unsafe(no_mangle)]
pub extern "C" fn drumcallisto_release(b: &mut [u8], account: usize) -> Reply
    ensures told { result ≡ reply_of (answer_on b.old account (λ v. (release_of v).answer)) }
    ensures left { b.new ≡ bytes_after b.old account (λ v. (release_of v).records) }
{
    released(register::release(b, account))
}

#[tactic(auto, unfolding(register::specs::Register::withdrawn_answer, register::specs::Register::account_answer))]
fn withdrawn(answer: Result<(), WithdrawError>) -> Reply
    ensures { result ≡ reply_of (withdrawn_answer answer) }
{
    match answer {
        Ok(()) => done(0),
        Err(WithdrawError::Account(reason)) => no_account(reason),
        Err(WithdrawError::NothingPending) => refused(Reason::NothingThere, 0),
    }
}

/// Drops the pending entry of a number, and its record where nothing is live.
#[unsafe(no_mangle)]
pub extern "C" fn drumcallisto_withdraw(b: &mut [u8], account: usize, number: &[u8]) -> Reply
    ensures told { result ≡ reply_of (answer_on b.old account (λ v. (withdraw_of number.now v).answer)) }
    ensures left { b.new ≡ bytes_after b.old account (λ v. (withdraw_of number.now v).records) }
{
    withdrawn(register::withdraw(b, account, number))
}

#[tactic(auto, unfolding(register::specs::Register::record_answer, register::specs::Register::account_answer, shown::specs::Shown::lines_answer))]
fn shown(answer: Result<usize, ShowError>) -> Reply
    ensures { result ≡ reply_of (record_answer answer) }
{
    match answer {
        Ok(n) => done(n),
        Err(ShowError::Account(reason)) => no_account(reason),
        Err(ShowError::Lines(LinesError::NoRecord)) => refused(Reason::NothingThere, 0),
        Err(ShowError::Lines(LinesError::TooShort)) => refused(Reason::OutputTooShort, 0),
    }
}

/// The lines of an account's k-th record, from 0, to the front of an output.
#[unsafe(no_mangle)]
pub extern "C" fn drumcallisto_show(b: &[u8], account: usize, k: usize, out: &mut [u8]) -> Reply
    ensures told { result ≡ reply_of (answer_on b.now account (show_answer k out.old)) }
    ensures left { out.new ≡ output_after b.now account out.old (show_bytes k out.old) }
{
    shown(register::show(b, account, k, out))
}
