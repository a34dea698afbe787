// Statements: the bookings of an account that were booked on some days, as they stand, oldest first, handed out one by one.
ghost use Rattle.std.specs.Prelude.{◌≡◌, ℕ, ◌<◌, ◌≤◌, ◌&&◌, ◌||◌, length, ◌==◌, nat_le};
ghost use Rattle.bank.specs.Builders.{booking_at};
ghost use Rattle.ledger.specs.Meaning.{bank};
ghost use Rattle.desk.specs.Desk.{Kept};
ghost use Rattle.desk.specs.Statements.{lines_left, Stated, Handed};

use crate::Book;
use crate::refusal::Refusal;
use ledger::Ledger;
use wire::booking::Booking;

// What a statement has yet to hand out: the bookings of an account, from one on, that were booked on some days. It is held between acts beside the book, which it does not
// borrow, and so it is no iterator.
#[derive(Clone, Copy, Debug)]
pub struct Statement {
    account: u32,
    first: u64,
    last: u64,
    next: u64,
}

// The first booking of a day or a later one, or how many there are where there is none. Bookings stand in the order in which they were booked.
fn first_booked(ledger: &Ledger, day: u64) -> usize
    requires { Kept ledger.now }
    ensures within { result ≤ length (bank ledger.now).bookings }
    ensures before { (k : ℕ) → k < result → (booking_at (bank ledger.now) k).on < day }
    ensures from { result < length (bank ledger.now).bookings → day ≤ (booking_at (bank ledger.now) result).on }
{
    ledger
        .booked_days()
        .partition_point(|on| (*on as u64) < day)
}

impl Statement {
    // Begins a statement of an account, of what was booked from a first day to a last.
    pub fn begin(ledger: &Ledger, account: u64, first: u64, last: u64) -> Result<Statement, Refusal>
        requires { Kept ledger.now }
        ensures { Stated ledger.now account first last result }
    {
        let Some(account) = ledger.account(account) else {
            return Err(Refusal::Account { field: 0 });
        };
        Ok(Statement {
            account,
            first,
            last,
            next: first_booked(ledger, first) as u64,
        })
    }

    // Is a booking one of its lines?
    fn lists(self, b: Booking) -> bool
        ensures { result ≡ ((b.from == self.account || b.to == self.account) && (nat_le self.first b.on && nat_le b.on self.last)) }
    {
        let on = b.on as u64;
        (b.from == self.account || b.to == self.account) && (self.first <= on && on <= self.last)
    }

    // Hands out the next line, if there is one.
    #[tactic(auto, using(ledger::proofs::Bank::bank_count))]
    pub fn next_line(&mut self, ledger: &Ledger) -> Option<Booking>
        requires { Kept ledger.now }
        ensures { Handed (bank ledger.now) self.old self.new result }
    {
        while let Some(booking) = ledger.find_booking(self.next) {
            if self.last < booking.on as u64 {
                return None;
            }
            self.next += 1;
            if self.lists(booking) {
                return Some(booking);
            }
        }
        None
    }

    // How many lines it has yet to hand out.
    #[tactic(auto, using(ledger::proofs::Bank::bank_count, crate::proofs::Lines::left_few))]
    pub fn count(self, ledger: &Ledger) -> u64
        requires { Kept ledger.now }
        ensures { result ≡ length (lines_left (bank ledger.now) self) }
    {
        let mut rest = self;
        let mut count = 0;
        while let Some(_) = rest.next_line(ledger) {
            count += 1;
        }
        count
    }
}

impl Book<'_> {
    // Begins a statement of an account, of what was booked from a first day to a last.
    pub fn statement(&self, account: u64, first: u64, last: u64) -> Result<Statement, Refusal>
        ensures { Stated self.now.ledger account first last result }
    {
        Statement::begin(&self.ledger, account, first, last)
    }

    // Hands out the next line of a statement, if there is one.
    pub fn next_line(&self, statement: &mut Statement) -> Option<Booking>
        ensures { Handed (bank self.now.ledger) statement.old statement.new result }
    {
        statement.next_line(&self.ledger)
    }

    // How many lines a statement has yet to hand out.
    pub fn line_count(&self, statement: Statement) -> u64
        ensures { result ≡ length (lines_left (bank self.now.ledger) statement) }
    {
        statement.count(&self.ledger)
    }
}
