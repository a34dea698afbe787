// Taking a book over from a snapshot: accounts without their rates, the rates in the order in which they were set, the day, the bookings as they stand, and how many calls were counted.
ghost use Rattle.std.specs.Prelude.{◌<◌, ◌≤◌, length};
ghost use Rattle.bank.specs.Builders.{with_today};
ghost use Rattle.bank.specs.Effects.{adds, made};
ghost use Rattle.ledger.specs.Meaning.{bank, limits, with_done, bare_account};
ghost use Rattle.ledger.specs.Made.{Becomes};

use crate::Ledger;

#[tactic(auto, using(crate::proofs::Live::bank_sums))]
impl Ledger<'_> {
    // Adds an account with a limit and no rate.
    pub fn restore_account(&mut self, limit: u64)
        requires small { limit ≤ 100000000000 }
        requires account { length (bank self.old).accounts < (limits self.old).accounts }
        ensures { Becomes self.old self.new (made (bank self.old) (adds (bare_account limit))) }
    {
        let number = self.accounts.count();
        self.accounts.append(limit);
        self.chains.begin(number);
    }

    // Goes on to a day.
    #[tactic(auto, using(crate::proofs::Live::bank_sums), unfolding(crate::specs::Meaning::bank, crate::specs::Meaning::rates_set))]
    pub fn restore_day(&mut self, day: u32)
        requires later { (bank self.old).today ≤ day }
        requires last { day ≤ 3650 }
        ensures { Becomes self.old self.new (with_today (bank self.old) day) }
    {
        self.today = day;
    }

    // Takes over how many calls were counted.
    #[tactic(auto, using(crate::proofs::Live::bank_sums), unfolding(crate::specs::Meaning::bank, crate::specs::Meaning::rates_set))]
    pub fn restore_done(&mut self, done: u32)
        ensures { Becomes self.old self.new (with_done (bank self.old) done) }
    {
        self.done = done as u64;
    }
}
