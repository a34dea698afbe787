// Ends of days. That of a day on which a month ends is not there yet.
ghost use Rattle.std.specs.Prelude.{◌≡◌, suc};
ghost use Rattle.bank.specs.Builders.{month_starts};
ghost use Rattle.ledger.specs.Meaning.{bank};
ghost use Rattle.desk.specs.Desk.{DayServed, Kept, reply, took};

use crate::Book;
use crate::refusal::Refusal;
use ledger::Ledger;
use wire::answer::Answer;

// The last day that a book can have.
const LAST_DAY: u32 = 3_650;

// Days of a month.
const MONTH: u32 = 30;

// Does a month end today?
#[tactic(auto, using(ledger::proofs::Bank::bank_today))]
pub fn ends_month(ledger: &Ledger) -> bool
    ensures { result ≡ month_starts (suc (bank ledger.now).today) }
{
    (ledger.today() + 1) % MONTH == 0
}

// Ends a day. Ends of days on which a month ends are not there yet.
pub fn end_day(ledger: &mut Ledger) -> Result<Answer, Refusal>
    requires { Kept ledger.old }
    ensures { DayServed ledger.old ledger.new (reply result) (took result) }
{
    if ends_month(ledger) {
        return Err(Refusal::NotYet);
    }
    let bookings = ledger.booking_count() as u64;
    let Some(bookings) = (ledger.today() < LAST_DAY).then_some(bookings) else {
        return Err(Refusal::NoRoom);
    };
    ledger.begin_day();
    ledger.count_call();
    Ok(Answer::Number(bookings))
}

impl Book<'_> {
    // Does a month end today?
    pub fn ends_month(&self) -> bool
        ensures { result ≡ month_starts (suc (bank self.now.ledger).today) }
    {
        ends_month(&self.ledger)
    }

    // Ends a day. Ends of days on which a month ends are not there yet.
    pub fn end_day(&mut self) -> Result<Answer, Refusal>
        ensures { DayServed self.old.ledger self.new.ledger (reply result) (took result) }
    {
        end_day(&mut self.ledger)
    }
}
