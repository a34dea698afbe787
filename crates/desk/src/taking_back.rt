// Taking back: a booking is marked, once, and never interest.
ghost use Rattle.bank.specs.Calls.{take_back};
ghost use Rattle.bank.specs.Checks.{can_be_back};
ghost use Rattle.ledger.specs.Meaning.{bank};
ghost use Rattle.desk.specs.Desk.{HandsOn, Kept, Served, reply, took};

use crate::Book;
use crate::refusal::Refusal;
use ledger::Ledger;
use wire::answer::Answer;

// A booking that can be taken back: it is there, was not taken back before, and is no interest.
fn returnable(ledger: &Ledger, number: u64) -> Option<usize>
    ensures { HandsOn result number (can_be_back (bank ledger.now) number) }
{
    let booking = ledger.find_booking(number)?;
    (booking.back.is_none() && booking.kind.goes_back()).then_some(number as usize)
}

// Takes a booking back.
pub fn take_back(ledger: &mut Ledger, booking: u64) -> Result<Answer, Refusal>
    requires { Kept ledger.old }
    ensures { Served ledger.old ledger.new (take_back booking) (reply result) (took result) }
{
    let Some(number) = returnable(ledger, booking) else {
        return Err(Refusal::Booking);
    };
    ledger.take_back(number);
    ledger.count_call();
    Ok(Answer::Number(booking))
}

impl Book<'_> {
    // Takes a booking back.
    pub fn take_back(&mut self, booking: u64) -> Result<Answer, Refusal>
        ensures { Served self.old.ledger self.new.ledger (take_back booking) (reply result) (took result) }
    {
        take_back(&mut self.ledger, booking)
    }
}
