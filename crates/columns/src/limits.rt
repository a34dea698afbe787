// What a book is opened with, and how much memory that asks for.
ghost use Rattle.std.specs.Prelude.{◌≡◌, ◌+◌, ◌*◌, ◌≤◌};
ghost use Rattle.bank.specs.Promise.{allowed};
ghost use Rattle.columns.specs.Sizes.{limits_of, cents_for, numbers_for, bytes_for};

// How many accounts, rates and bookings a book can have.
#[derive(Clone, Copy, PartialEq, Eq)]
pub struct Limits {
    pub accounts: u32,
    pub rates: u32,
    pub bookings: u32,
}

// Bytes for the block that is written next, and for what a session holds besides.
const BLOCK: usize = 512;

const SESSION: usize = 3_584;

impl Limits {
    // May a book be opened with these?
    pub fn are_allowed(self) -> bool
        ensures { result ≡ allowed (limits_of self) }
    {
        (2..=4_096).contains(&self.accounts) && self.rates <= 16_384 && self.bookings <= 1_000_000
    }

    // How many cells of 8 bytes are to be lent.
    pub fn cents_needed(self) -> usize
        ensures { result ≡ cents_for (limits_of self) }
    {
        6 * self.accounts as usize + self.bookings as usize
    }

    // How many cells of 4 bytes are to be lent.
    pub fn numbers_needed(self) -> usize
        ensures { result ≡ numbers_for (limits_of self) }
    {
        3 * self.accounts as usize + 3 * self.rates as usize + 8 * self.bookings as usize
    }

    // All bytes that a core with these limits asks for: at most 64 for each, and 4,096 more.
    pub fn bytes_needed(self) -> usize
        ensures exact { result ≡ bytes_for (limits_of self) }
        ensures within { result ≤ 64 * (self.accounts + self.rates + self.bookings) + 4096 }
    {
        8 * self.cents_needed() + 4 * self.numbers_needed() + BLOCK + SESSION
    }
}
