// Rates in lent memory, in the order in which they were set.
ghost use Rattle.std.specs.Prelude.{◌≡◌, ◌*◌, ◌<◌, ◌≤◌, length};

// A rate that an account has from a day on, in hundredths of a per cent a year.
#[derive(Clone, Copy)]
pub struct Rate {
    pub account: u32,
    pub since: u32,
    pub rate: u32,
}

// All rates.
#[derive(Drop)]
pub struct Rates<'a> {
    account: &'a mut [u32],
    since: &'a mut [u32],
    rate: &'a mut [u32],
    count: usize,
    capacity: usize,
    pub ghost within: { count ≤ capacity },
    pub ghost few: { capacity ≤ 16384 },
    pub ghost account_room: { capacity ≤ length account.now },
    pub ghost since_room: { capacity ≤ length since.now },
    pub ghost rate_room: { capacity ≤ length rate.now },
}

impl<'a> Rates<'a> {
    ghost use Rattle.columns.specs.RateRows.{NewRates};

    // Cuts a slice into columns, with no rates in them.
    pub fn lay(numbers: &'a mut [u32], capacity: usize) -> Rates<'a>
        requires few { capacity ≤ 16384 }
        requires numbers { 3 * capacity ≤ length numbers.old }
        ensures { NewRates result capacity }
    {
        let (account, rest) = numbers.split_at_mut(capacity);
        let (since, rate) = rest.split_at_mut(capacity);
        Rates {
            account,
            since,
            rate,
            count: 0,
            capacity,
        }
    }
}

impl Rates<'_> {
    ghost use Rattle.columns.specs.RateRows.{dated, rate_row, RateAdded};

    // How many there are.
    pub fn count(&self) -> usize
        ensures { result ≡ self.now.count }
    {
        self.count
    }

    // How many there can be.
    pub fn capacity(&self) -> usize
        ensures { result ≡ self.now.capacity }
    {
        self.capacity
    }

    // Rate `i`.
    pub fn get(&self, i: usize) -> Rate
        requires there { i < self.now.count }
        ensures { dated result ≡ rate_row self.now i }
    {
        Rate {
            account: self.account[i],
            since: self.since[i],
            rate: self.rate[i],
        }
    }

    // One more rate.
    pub fn append(&mut self, x: Rate)
        requires space { self.old.count < self.old.capacity }
        ensures { RateAdded self.old self.new (dated x) }
    {
        let i = self.count;
        self.account[i] = x.account;
        self.since[i] = x.since;
        self.rate[i] = x.rate;
        self.count = i + 1;
    }
}
