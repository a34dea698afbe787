// Effects on the book: what a call that is taken is made of. A call is counted after its effects.
ghost use Rattle.std.specs.Prelude.{◌≡◌, ◌+◌, ◌<◌, ◌≤◌, length};
ghost use Rattle.bank.specs.Builders.{new_account, booking_at, counted};
ghost use Rattle.bank.specs.Calls.{rates_in};
ghost use Rattle.bank.specs.Effects.{books, marks, adds, rates, turns};
ghost use Rattle.ledger.specs.Facts.{Fit};
ghost use Rattle.ledger.specs.Meaning.{bank, limits, most_done};
ghost use Rattle.ledger.specs.Made.{Made, Becomes};
ghost use Rattle.wire.specs.Booked.{booked};

use crate::Ledger;
use columns::rates::Rate;
use wire::booking::Booking;

#[tactic(auto, using(crate::proofs::Live::bank_sums))]
impl Ledger<'_> {
    // Adds an account with a limit and a rate from today on, and gives its number.
    pub fn add_account(&mut self, limit: u64, rate: u32) -> u32
        requires small { limit ≤ 100000000000 }
        requires account { length (bank self.old).accounts < (limits self.old).accounts }
        requires rate { rates_in (bank self.old).accounts < (limits self.old).rates }
        ensures number { result ≡ length (bank self.old).accounts }
        ensures made { Made self.old self.new (adds (new_account (bank self.old).today limit rate)) }
    {
        let account = self.account_count() as u32;
        let since = self.today;
        self.restore_account(limit);
        self.add_rate(Rate {
            account,
            since,
            rate,
        });
        account
    }

    // Adds a rate of an account that is there.
    pub fn add_rate(&mut self, x: Rate)
        requires account { x.account < length (bank self.old).accounts }
        requires rate { rates_in (bank self.old).accounts < (limits self.old).rates }
        ensures { Made self.old self.new (rates x.account (record { since = x.since; rate = x.rate })) }
    {
        self.rates.append(x);
    }

    // Adds a booking under the next number.
    pub fn append(&mut self, b: Booking)
        requires fit { Fit (bank self.old).today (length (bank self.old).accounts) (booked b) }
        requires small { b.amount ≤ 4000000000000 }
        requires space { length (bank self.old).bookings < (limits self.old).bookings }
        ensures { Made self.old self.new (books (booked b)) }
    {
        let number = self.bookings.count();
        self.accounts.credit(b);
        self.chains.link(b, number);
        self.bookings.append(b);
    }

    // Marks a booking as taken back today.
    pub fn take_back(&mut self, number: usize)
        requires there { number < length (bank self.old).bookings }
        requires counts { (booking_at (bank self.old) number).back ≡ 0 }
        ensures { Made self.old self.new (marks number) }
    {
        let b = self.bookings.get(number);
        self.accounts.debit(b);
        self.bookings.take_back(number, self.today);
    }

    // Begins the next day.
    #[tactic(auto, using(crate::proofs::Live::bank_sums), unfolding(crate::specs::Meaning::bank, crate::specs::Meaning::rates_set, bank::specs::Effects::made))]
    pub fn begin_day(&mut self)
        requires today { (bank self.old).today < 3650 }
        ensures { Made self.old self.new turns }
    {
        self.today += 1;
    }

    // Counts one more call that changed the book.
    #[tactic(auto, unfolding(crate::specs::Meaning::bank, crate::specs::Meaning::rates_set))]
    pub fn count_call(&mut self)
        requires unit { self.old.done < most_done self.old }
        ensures { Becomes self.old self.new (counted (bank self.old)) }
    {
        self.done += 1;
    }
}
