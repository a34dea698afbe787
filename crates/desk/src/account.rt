// Accounts: opening one with a limit and a rate, and setting a rate.
ghost use Rattle.std.specs.Prelude.{nat_le};
ghost use Rattle.bank.specs.Calls.{opens, rated};
ghost use Rattle.desk.specs.Desk.{HandsOn, Kept, Served, reply, took};

use crate::refusal::Refusal;
use crate::{Book, MOST};
use columns::rates::Rate;
use ledger::Ledger;
use wire::answer::Answer;

// The highest yearly rate, in hundredths of a per cent.
const MOST_RATE: u64 = 2_000;

// A limit that an account can have.
fn allowable(limit: u64) -> Option<u64>
    ensures { HandsOn result limit (nat_le limit 100000000000) }
{
    (limit <= MOST).then_some(limit)
}

// A yearly rate that an account can have, in hundredths of a per cent.
fn rate_of(rate: u64) -> Option<u32>
    ensures { HandsOn result rate (nat_le rate 2000) }
{
    (rate <= MOST_RATE).then(|| rate as u32)
}

// Opens an account with a limit and a rate from today on.
pub fn open(ledger: &mut Ledger, limit: u64, rate: u64) -> Result<Answer, Refusal>
    requires { Kept ledger.old }
    ensures { Served ledger.old ledger.new (opens limit rate) (reply result) (took result) }
{
    let Some(limit) = allowable(limit) else {
        return Err(Refusal::Limit);
    };
    let Some(rate) = rate_of(rate) else {
        return Err(Refusal::Rate);
    };
    let Some(rate) = ledger.has_room_for_account().then_some(rate) else {
        return Err(Refusal::NoRoom);
    };
    let number = ledger.add_account(limit, rate);
    ledger.count_call();
    Ok(Answer::Number(number as u64))
}

// Sets the rate of an account from today on.
pub fn set_rate(ledger: &mut Ledger, account: u64, rate: u64) -> Result<Answer, Refusal>
    requires { Kept ledger.old }
    ensures { Served ledger.old ledger.new (rated account rate) (reply result) (took result) }
{
    let Some(rate) = rate_of(rate) else {
        return Err(Refusal::Rate);
    };
    let Some(account) = ledger.account(account) else {
        return Err(Refusal::Account { field: 0 });
    };
    let Some(rate) = ledger.has_room_for_rate().then_some(rate) else {
        return Err(Refusal::NoRoom);
    };
    let since = ledger.today();
    ledger.add_rate(Rate {
        account,
        since,
        rate,
    });
    ledger.count_call();
    Ok(Answer::Number(0))
}

impl Book<'_> {
    // Opens an account with a limit and a rate from today on.
    pub fn open_account(&mut self, limit: u64, rate: u64) -> Result<Answer, Refusal>
        ensures { Served self.old.ledger self.new.ledger (opens limit rate) (reply result) (took result) }
    {
        open(&mut self.ledger, limit, rate)
    }

    // Sets the rate of an account from today on.
    pub fn set_rate(&mut self, account: u64, rate: u64) -> Result<Answer, Refusal>
        ensures { Served self.old.ledger self.new.ledger (rated account rate) (reply result) (took result) }
    {
        set_rate(&mut self.ledger, account, rate)
    }
}
