// Scratch cells for a month's end, one of each kind for every account.
ghost use Rattle.std.specs.Prelude.{◌*◌, ◌≤◌, length};
ghost use Rattle.columns.specs.Spare.{Spare};

// By account. What they hold means nothing between two calls.
#[derive(Drop)]
pub struct Scratch<'a> {
    // its balance by value
    pub balance: &'a mut [u64],
    // its units of interest
    pub units: &'a mut [u64],
    // its rate of the day
    pub rate: &'a mut [u32],
}

impl<'a> Scratch<'a> {
    // Cuts cells for so many accounts.
    pub fn lay(cents: &'a mut [u64], rate: &'a mut [u32], accounts: usize) -> Scratch<'a>
        requires few { accounts ≤ 4096 }
        requires cents { 2 * accounts ≤ length cents.old }
        requires rates { accounts ≤ length rate.old }
        ensures { Spare result accounts }
    {
        let (balance, units) = cents.split_at_mut(accounts);
        Scratch {
            balance,
            units,
            rate,
        }
    }
}
