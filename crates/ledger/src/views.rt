// What stands in the book, row by row.
ghost use Rattle.std.specs.Prelude.{◌≡◌, ◌<◌, length};
ghost use Rattle.bank.specs.Builders.{booking_at};
ghost use Rattle.bank.specs.Calls.{limit_of};
ghost use Rattle.columns.specs.RateRows.{dated};
ghost use Rattle.columns.specs.Rows.{booked_days};
ghost use Rattle.ledger.specs.Meaning.{bank, rates_set, rate_at};
ghost use Rattle.wire.specs.Booked.{booked};

use crate::Ledger;
use columns::rates::Rate;
use wire::booking::Booking;

#[tactic(auto, using(crate::proofs::Bank::bank_cells))]
impl Ledger<'_> {
    // The day that it is.
    pub fn today(&self) -> u32
        ensures { result ≡ (bank self.now).today }
    {
        self.today
    }

    // How many calls were taken that changed the book.
    pub fn done(&self) -> u64
        ensures { result ≡ (bank self.now).done }
    {
        self.done
    }

    // How many accounts there are.
    pub fn account_count(&self) -> usize
        ensures { result ≡ length (bank self.now).accounts }
    {
        self.accounts.count()
    }

    // How many rates there are.
    pub fn rate_count(&self) -> usize
        ensures { result ≡ length (rates_set self.now) }
    {
        self.rates.count()
    }

    // How many bookings there are.
    pub fn booking_count(&self) -> usize
        ensures { result ≡ length (bank self.now).bookings }
    {
        self.bookings.count()
    }

    // The limit of an account.
    pub fn limit(&self, account: u32) -> u64
        requires there { account < length (bank self.now).accounts }
        ensures { result ≡ limit_of (bank self.now) account }
    {
        self.accounts.get(account as usize).limit
    }

    // Rate `i`, in the order in which they were set.
    pub fn rate(&self, i: usize) -> Rate
        requires there { i < length (rates_set self.now) }
        ensures { dated result ≡ rate_at self.now i }
    {
        self.rates.get(i)
    }

    // Booking `i`.
    pub fn booking(&self, i: usize) -> Booking
        requires there { i < length (bank self.now).bookings }
        ensures { booked result ≡ booking_at (bank self.now) i }
    {
        self.bookings.get(i)
    }

    // The days on which the bookings were booked, in order.
    pub fn booked_days(&self) -> &[u32]
        ensures { result.now ≡ booked_days (bank self.now).bookings }
    {
        self.bookings.booked_days()
    }
}
