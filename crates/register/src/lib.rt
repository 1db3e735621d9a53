//! The register's calls: open, release, withdraw, show, on any buffer and any account number. Document 01, "The register".
//! Each call tests before it stores; a refusal changes no byte.

#![tactic(auto)]

ghost use Rattle.std.specs.Prelude.{◌≡◌, map, ◌+◌, ◌*◌, ◌≤◌, ◌<◌, length, IfOk, IfErr};
ghost use Rattle.laws.specs.Joined.{joined, total};
ghost use Rattle.laws.specs.Put.{put_at};
ghost use Rattle.contents.specs.Written.{two_bytes};
ghost use Rattle.contents.specs.Calls.{open_answer, open_bytes, is_account, release_of, withdraw_of, show_answer, show_bytes, answer_on, bytes_after, output_after};
ghost use Rattle.register.specs.declared.WithdrawError.TheVariants as withdraw;
ghost use Rattle.register.specs.declared.ShowError.TheVariants as show;
ghost use Rattle.register.specs.Register.{opened_answer, released_answer, withdrawn_answer, record_answer};
ghost use Rattle.register.specs.Room.{Room, NoRoom};

use dates::Date;
use raw_bytes::wide;
use shown::LinesError;

const LENGTH: usize = 35858;

const HEAD: usize = 18;

/// Why no register is opened; the buffer is as it was.
#[derive(Clone, Copy, PartialEq, Eq, Debug)]
pub enum OpenError {
    /// The buffer has another length than a register.
    WrongLength,
    /// The first date is none, its window is not wholly within the dates, or the quotas are too many.
    BadOpening,
}

/// Why a call finds no room of an account; nothing has changed.
#[derive(Clone, Copy, PartialEq, Eq, Debug)]
pub enum AccountError {
    /// The buffer is not a register.
    NotRegister,
    /// The account is not 1 to 8.
    BadAccount,
}

/// Why nothing is withdrawn; the buffer is as it was.
#[derive(Clone, Copy, PartialEq, Eq, Debug)]
pub enum WithdrawError {
    /// There is no room of the account.
    Account(AccountError),
    /// The number has no pending entry.
    NothingPending,
}

impl From<AccountError> for WithdrawError {
    ghost from_gives = { λ reason error. error ≡ withdraw.Account reason };

    fn from(reason: AccountError) -> WithdrawError {
        WithdrawError::Account(reason)
    }
}

/// Why no record is shown; the output is as it was.
#[derive(Clone, Copy, PartialEq, Eq, Debug)]
pub enum ShowError {
    /// There is no room of the account.
    Account(AccountError),
    /// There is no such record, or no room for its lines.
    Lines(LinesError),
}

impl From<AccountError> for ShowError {
    ghost from_gives = { λ reason error. error ≡ show.Account reason };

    fn from(reason: AccountError) -> ShowError {
        ShowError::Account(reason)
    }
}

impl From<LinesError> for ShowError {
    ghost from_gives = { λ reason error. error ≡ show.Lines reason };

    fn from(reason: LinesError) -> ShowError {
        ShowError::Lines(reason)
    }
}

fn total_of(quotas: &[u32]) -> usize
    requires { length quotas.now ≤ 8 }
    ensures { result ≡ total quotas.now }
{
    quotas.iter().map(|&quota| wide(quota)).sum()
}

// A number in two bytes, the lower first.
fn put_number(b: &mut [u8], at: usize, n: usize)
    requires { n < 65536 }
    ensures { b.new ≡ put_at b.old at (two_bytes n) }
{
    let bytes = [(n % 256) as u8, (n / 256) as u8];
    raw_bytes::put_bytes(b, at, &bytes);
}

// The quotas, behind the number of the first date.
fn put_quotas(b: &mut [u8], quotas: &[u32])
    requires { (2 + length quotas.now * 2 ≤ length b.old) × (total quotas.now ≤ 256) }
    ensures { b.new ≡ put_at b.old 2 (joined (map two_bytes quotas.now)) }
{
    for (k, &quota) in quotas.iter().enumerate() {
        put_number(b, 2 + k * 2, wide(quota));
    }
}

/// Opens a register over a buffer: window and quotas, no records.
pub fn open(b: &mut [u8], first: Date, quotas: [u32; 8]) -> Result<(), OpenError>
    ensures told { opened_answer result ≡ open_answer b.old first quotas }
    ensures left { b.new ≡ open_bytes b.old first quotas }
{
    if b.len() != LENGTH {
        return Err(OpenError::WrongLength);
    }
    let Some(day) = first.day_number() else {
        return Err(OpenError::BadOpening);
    };
    if 40177 - 512 < day {
        return Err(OpenError::BadOpening);
    }
    if 256 < total_of(&quotas) {
        return Err(OpenError::BadOpening);
    }
    put_number(b, 0, day);
    put_quotas(b, &quotas);
    gaps::clear_from(b, HEAD);
    Ok(())
}

fn is_account(account: usize) -> bool
    ensures { result ≡ is_account account }
{
    if account < 1 {
        return false;
    }
    account <= 8
}

// Where the room of an account begins and ends in a register.
fn room(b: &[u8], account: usize) -> Result<(usize, usize), AccountError>
    ensures ok { IfOk result (λ bounds. Room b.now account bounds.0 bounds.1) }
    ensures err { IfErr result (λ reason. NoRoom b.now account reason) }
{
    if !checking::is_register(b) {
        return Err(AccountError::NotRegister);
    }
    if !is_account(account) {
        return Err(AccountError::BadAccount);
    }
    Ok((rooms::room_start(b, account), rooms::room_end(b, account)))
}

/// Makes every pending entry of an account live, or takes its record out; answers how many entries were pending.
pub fn release(b: &mut [u8], account: usize) -> Result<usize, AccountError>
    ensures told { released_answer result ≡ answer_on b.old account (λ v. (release_of v).answer) }
    ensures left { b.new ≡ bytes_after b.old account (λ v. (release_of v).records) }
{
    let (from, to) = room(b, account)?;
    Ok(entries::release_room(&mut b[from..to]))
}

/// Drops the pending entry of a service of an account, and its record where nothing is live.
pub fn withdraw(b: &mut [u8], account: usize, number: &[u8]) -> Result<(), WithdrawError>
    ensures told { withdrawn_answer result ≡ answer_on b.old account (λ v. (withdraw_of number.now v).answer) }
    ensures left { b.new ≡ bytes_after b.old account (λ v. (withdraw_of number.now v).records) }
{
    let (from, to) = room(b, account)?;
    if entries::withdraw_number(&mut b[from..to], number) {
        return Ok(());
    }
    Err(WithdrawError::NothingPending)
}

/// Writes the lines of an account's k-th record, from 0, to the front of an output; what stands past them stays. Answers how many bytes
/// they are.
pub fn show(b: &[u8], account: usize, k: usize, out: &mut [u8]) -> Result<usize, ShowError>
    ensures told { record_answer result ≡ answer_on b.now account (show_answer k out.old) }
    ensures left { out.new ≡ output_after b.now account out.old (show_bytes k out.old) }
{
    let (from, to) = room(b, account)?;
    let shown = shown::show_record(&b[from..to], k, out)?;
    Ok(shown)
}
