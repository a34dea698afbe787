// Balances by value day, as known at the end of a day, and the sums of all accounts.
ghost use Rattle.std.specs.Prelude.{◌≡◌, ◌<◌, length, pos, ◌-ℤ◌};
ghost use Rattle.bank.specs.Book.{came, left};
ghost use Rattle.bank.specs.Calls.{all_in, all_out};
ghost use Rattle.bank.specs.Sums.{tally};
ghost use Rattle.columns.specs.Parts.{counts};
ghost use Rattle.ledger.specs.Meaning.{bank};

use crate::Ledger;
use columns::chains::{Incoming, Outgoing, Side};
use columns::shares::share;

impl Ledger<'_> {
    // What came to an account by a value day, as known at the end of a day.
    #[tactic(auto, using(bank::proofs::Tally::came_tally))]
    pub fn came(&self, account: u32, value_day: u32, known_day: u32) -> u64
        requires there { account < length (bank self.now).accounts }
        ensures { result ≡ came known_day account value_day (bank self.now).bookings }
    {
        self.moved::<Incoming>(account, value_day, known_day)
    }

    // What left an account by a value day, as known at the end of a day.
    #[tactic(auto, using(bank::proofs::Tally::left_tally))]
    pub fn left(&self, account: u32, value_day: u32, known_day: u32) -> u64
        requires there { account < length (bank self.now).accounts }
        ensures { result ≡ left known_day account value_day (bank self.now).bookings }
    {
        self.moved::<Outgoing>(account, value_day, known_day)
    }

    // What was moved on a side of an account: a walk along its chain, whose links lie in lent cells.
    fn moved<S: Side>(&self, account: u32, value_day: u32, known_day: u32) -> u64
        requires there { account < length (bank self.now).accounts }
        ensures { result ≡ tally (counts S.party_of known_day account value_day) (bank self.now).bookings }
    {
        let chain = S::chain(&self.chains);
        let mut sum = 0;
        let mut next = chain.newest(account);
        while let Some(i) = next {
            sum += share::<S>(self.bookings.get(i), account, value_day, known_day);
            next = chain.before(i);
        }
        sum
    }

    // What an account has by a value day, as known at the end of a day: what came less what left.
    #[tactic(auto, using(crate::proofs::Walk::few))]
    pub fn balance(&self, account: u32, value_day: u32, known_day: u32) -> i64
        requires there { account < length (bank self.now).accounts }
        ensures { result ≡ pos (came known_day account value_day (bank self.now).bookings) -ℤ pos (left known_day account value_day (bank self.now).bookings) }
    {
        let came = self.came(account, value_day, known_day);
        let left = self.left(account, value_day, known_day);
        came as i64 - left as i64
    }

    // What came to all accounts and what left all, by today as known today.
    #[tactic(auto, using(crate::proofs::Live::bank_sums))]
    pub fn sums(&self) -> (u64, u64)
        ensures came { result.0 ≡ all_in (bank self.now) (length (bank self.now).accounts) }
        ensures left { result.1 ≡ all_out (bank self.now) (length (bank self.now).accounts) }
    {
        let mut came = 0;
        let mut left = 0;
        // by number: an account's cells lie in parallel columns, and two sums of a column each would go over them twice
        for a in 0..self.accounts.count() {
            let cells = self.accounts.get(a);
            came += cells.came;
            left += cells.left;
        }
        (came, left)
    }
}
