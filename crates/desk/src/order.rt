// Orders: moving an amount from one account to another.
ghost use Rattle.std.specs.Prelude.{not, ◌&&◌, ◌==◌, nat_le};
ghost use Rattle.bank.specs.Calls.{move};
ghost use Rattle.desk.specs.Desk.{HandsOn, Kept, Served, reply, took};

use crate::refusal::Refusal;
use crate::{Book, MOST};
use ledger::Ledger;
use wire::answer::Answer;
use wire::booking::{Booking, Kind};

// An amount that can be ordered.
fn orderable(cents: u64) -> Option<u64>
    ensures { HandsOn result cents (nat_le 1 cents && nat_le cents 100000000000) }
{
    (1 <= cents && cents <= MOST).then_some(cents)
}

// A payee that is another account than the payer.
fn another(payer: u32, payee: u32) -> Option<u32>
    ensures { HandsOn result payee (not (payer == payee)) }
{
    (payer != payee).then_some(payee)
}

// Moves an amount, of a value day, from one account to another.
pub fn order(
    ledger: &mut Ledger,
    value: u64,
    from: u64,
    to: u64,
    amount: u64,
) -> Result<Answer, Refusal>
    requires { Kept ledger.old }
    ensures { Served ledger.old ledger.new (move value from to amount) (reply result) (took result) }
{
    let Some(amount) = orderable(amount) else {
        return Err(Refusal::Amount);
    };
    let Some(from) = ledger.account(from) else {
        return Err(Refusal::Account { field: 1 });
    };
    let Some(to) = ledger.account(to) else {
        return Err(Refusal::Account { field: 2 });
    };
    let Some(to) = another(from, to) else {
        return Err(Refusal::SameAccount);
    };
    let Some(value) = ledger.value_day(value) else {
        return Err(Refusal::ValueDay);
    };
    let Some(amount) = ledger.enough(from, amount).then_some(amount) else {
        return Err(Refusal::NotEnough);
    };
    let Some(amount) = ledger.has_room_for_booking().then_some(amount) else {
        return Err(Refusal::NoRoom);
    };
    let Some(amount) = ledger.has_room_for_order(to, amount).then_some(amount) else {
        return Err(Refusal::NoRoom);
    };
    let number = ledger.booking_count() as u64;
    let on = ledger.today();
    ledger.append(Booking {
        on,
        value,
        from,
        to,
        amount,
        kind: Kind::Order,
        back: None,
    });
    ledger.count_call();
    Ok(Answer::Number(number))
}

impl Book<'_> {
    // Moves an amount, of a value day, from one account to another.
    pub fn order(&mut self, value: u64, from: u64, to: u64, amount: u64) -> Result<Answer, Refusal>
        ensures { Served self.old.ledger self.new.ledger (move value from to amount) (reply result) (took result) }
    {
        order(&mut self.ledger, value, from, to, amount)
    }
}
