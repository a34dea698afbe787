// Checks that a call asks of the book, each in one step: lookups hand on their value.
ghost use Rattle.std.specs.Prelude.{◌≡◌, ℕ, ◌+◌, ◌<◌, ◌≤◌, min, true, false, ◌&&◌, length, Some, None, nat_le, nat_lt};
ghost use Rattle.bank.specs.Book.{came, left};
ghost use Rattle.bank.specs.Builders.{booking_at, early_enough};
ghost use Rattle.bank.specs.Calls.{enough, ordered, rates_in};
ghost use Rattle.ledger.specs.Meaning.{bank, limits};
ghost use Rattle.wire.specs.Booked.{booked};

use crate::Ledger;
use wire::booking::Booking;

// The most cents that orders bring to one account.
const MOST_ORDERED: u64 = 100_000_000_000;

#[tactic(auto, using(crate::proofs::Live::bank_sums))]
impl Ledger<'_> {
    // The account of a number, if there is one.
    pub fn account(&self, number: u64) -> Option<u32>
        ensures { elim result [ Some a ↦ (a ≡ number) × (number < length (bank self.now).accounts) | None ↦ length (bank self.now).accounts ≤ number ] }
    {
        (number < self.accounts.count() as u64).then(|| number as u32)
    }

    // A value day that an order of today may have: today, or at most 60 days before.
    pub fn value_day(&self, day: u64) -> Option<u32>
        ensures { elim result [ Some d ↦ (d ≡ day) × (early_enough (bank self.now).today day ≡ true) | None ↦ early_enough (bank self.now).today day ≡ false ] }
    {
        let today = self.today as u64;
        (day <= today && today <= day + 60).then(|| day as u32)
    }

    // A day at whose end things are known: today, or one before.
    pub fn known_day(&self, day: u64) -> Option<u32>
        ensures { elim result [ Some d ↦ (d ≡ day) × (day ≤ (bank self.now).today) | None ↦ (bank self.now).today < day ] }
    {
        (day <= self.today as u64).then(|| day as u32)
    }

    // The day up to which values count for a question: no booking has a later one than today.
    pub fn last_value(&self, day: u64) -> u32
        ensures value { result ≡ min day (bank self.now).today }
        ensures came { (k a : ℕ) → came k a result (bank self.now).bookings ≡ came k a day (bank self.now).bookings }
        ensures left { (k a : ℕ) → left k a result (bank self.now).bookings ≡ left k a day (bank self.now).bookings }
    {
        day.min(self.today as u64) as u32
    }

    // The booking of a number, if there is one.
    pub fn find_booking(&self, number: u64) -> Option<Booking>
        ensures { elim result [ Some b ↦ (number < length (bank self.now).bookings) × (booked b ≡ booking_at (bank self.now) number) | None ↦ length (bank self.now).bookings ≤ number ] }
    {
        // A closure for `then` would have to repeat what `booking` ensures, so an `if` is plainer.
        if number < self.bookings.count() as u64 {
            Some(self.booking(number as usize))
        } else {
            None
        }
    }

    // Is there enough on an account to move an amount?
    #[tactic(auto, using(crate::proofs::Live::bank_sums), unfolding(bank::specs::Calls::enough))]
    pub fn enough(&self, account: u32, amount: u64) -> bool
        requires there { account < length (bank self.now).accounts }
        requires small { amount ≤ 100000000000 }
        ensures { result ≡ enough (bank self.now) account amount }
    {
        account < 2 || self.accounts.get(account as usize).covers(amount)
    }

    // What came to an account by orders that were not taken back.
    pub fn ordered(&self, account: u32) -> u64
        requires there { account < length (bank self.now).accounts }
        ensures { result ≡ ordered account (bank self.now).bookings }
    {
        self.accounts.get(account as usize).ordered
    }

    // Would orders to an account, with one more of an amount, still be within 10^11 cents?
    pub fn has_room_for_order(&self, account: u32, amount: u64) -> bool
        requires there { account < length (bank self.now).accounts }
        requires small { amount ≤ 100000000000 }
        ensures { result ≡ nat_le (ordered account (bank self.now).bookings + amount) 100000000000 }
    {
        self.ordered(account) + amount <= MOST_ORDERED
    }

    // Is there room for one more rate?
    pub fn has_room_for_rate(&self) -> bool
        ensures { result ≡ nat_lt (rates_in (bank self.now).accounts) (limits self.now).rates }
    {
        self.rates.count() < self.rates.capacity()
    }

    // Is there room for one more account, with a rate?
    pub fn has_room_for_account(&self) -> bool
        ensures { result ≡ (nat_lt (length (bank self.now).accounts) (limits self.now).accounts && nat_lt (rates_in (bank self.now).accounts) (limits self.now).rates) }
    {
        self.accounts.count() < self.accounts.capacity() && self.has_room_for_rate()
    }

    // Is there room for one more booking?
    pub fn has_room_for_booking(&self) -> bool
        ensures { result ≡ nat_lt (length (bank self.now).bookings) (limits self.now).bookings }
    {
        self.bookings.count() < self.bookings.capacity()
    }
}
