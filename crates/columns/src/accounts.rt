// Accounts in lent memory: limits, and running sums of the bookings that are not taken back.
ghost use Rattle.std.specs.Prelude.{◌≡◌, ℕ, ◌+◌, ◌*◌, ◌^◌, ◌<◌, ◌≤◌, length, nat_le, slice_index};
ghost use Rattle.columns.specs.Parts.{live, live_order};
ghost use Rattle.wire.specs.Booked.{booked};

use crate::shares::{live_amount, ordered_amount};
use wire::booking::Booking;

// The cells of one account: its limit, what came to it and what left it, and what came by orders.
#[derive(Clone, Copy)]
pub struct Account {
    pub limit: u64,
    pub came: u64,
    pub left: u64,
    pub ordered: u64,
}

impl Account {
    // Can so much more leave it?
    pub fn covers(self, amount: u64) -> bool
        requires left { self.left + amount < 2 ^ 64 }
        requires came { self.came + self.limit < 2 ^ 64 }
        ensures { result ≡ nat_le (self.left + amount) (self.came + self.limit) }
    {
        self.left + amount <= self.came + self.limit
    }
}

// All accounts, by number.
#[derive(Drop)]
pub struct Accounts<'a> {
    limit: &'a mut [u64],
    came: &'a mut [u64],
    left: &'a mut [u64],
    ordered: &'a mut [u64],
    count: usize,
    capacity: usize,
    // the till and the bank's own account are there
    pub ghost two: { 2 ≤ count },
    pub ghost within: { count ≤ capacity },
    pub ghost few: { capacity ≤ 4096 },
    pub ghost limit_room: { capacity ≤ length limit.now },
    pub ghost came_room: { capacity ≤ length came.now },
    pub ghost left_room: { capacity ≤ length left.now },
    pub ghost ordered_room: { capacity ≤ length ordered.now },
}

// Clears the cells of the first two accounts.
fn clear_two(column: &mut [u64])
    requires { 2 ≤ length column.old }
    ensures { (k : ℕ) → k < 2 → slice_index column.new k ≡ 0 }
{
    column[..2].fill(0);
}

impl<'a> Accounts<'a> {
    ghost use Rattle.columns.specs.Cells.{NewAccounts};

    // Cuts a slice into columns, with the till and the bank's own account in them.
    pub fn lay(cents: &'a mut [u64], capacity: usize) -> Accounts<'a>
        requires two { 2 ≤ capacity }
        requires few { capacity ≤ 4096 }
        requires cents { 4 * capacity ≤ length cents.old }
        ensures { NewAccounts result capacity }
    {
        let (limit, rest) = cents.split_at_mut(capacity);
        let (came, rest) = rest.split_at_mut(capacity);
        let (left, ordered) = rest.split_at_mut(capacity);
        clear_two(limit);
        clear_two(came);
        clear_two(left);
        clear_two(ordered);
        Accounts {
            limit,
            came,
            left,
            ordered,
            count: 2,
            capacity,
        }
    }
}

impl Accounts<'_> {
    ghost use Rattle.columns.specs.Cells.{cells, AccountAdded, Credited, Debited};

    // How many there are.
    pub fn count(&self) -> usize
        ensures { result ≡ self.now.count }
    {
        self.count
    }

    // How many there can be.
    pub fn capacity(&self) -> usize
        ensures { result ≡ self.now.capacity }
    {
        self.capacity
    }

    // The cells of account `a`.
    pub fn get(&self, a: usize) -> Account
        requires there { a < self.now.count }
        ensures { result ≡ cells self.now a }
    {
        Account {
            limit: self.limit[a],
            came: self.came[a],
            left: self.left[a],
            ordered: self.ordered[a],
        }
    }

    // One more account, with a limit and nothing booked.
    pub fn append(&mut self, limit: u64)
        requires space { self.old.count < self.old.capacity }
        ensures { AccountAdded self.old self.new limit }
    {
        let a = self.count;
        self.limit[a] = limit;
        self.came[a] = 0;
        self.left[a] = 0;
        self.ordered[a] = 0;
        self.count = a + 1;
    }

    // Adds a booking to the running sums of its two accounts.
    pub fn credit(&mut self, b: Booking)
        requires from { b.from < self.old.count }
        requires to { b.to < self.old.count }
        requires left { slice_index self.old.left.now b.from + live (booked b) < 2 ^ 64 }
        requires came { slice_index self.old.came.now b.to + live (booked b) < 2 ^ 64 }
        requires ordered { slice_index self.old.ordered.now b.to + live_order (booked b) < 2 ^ 64 }
        ensures { Credited self.old self.new (booked b) }
    {
        let amount = live_amount(b);
        self.left[b.from as usize] += amount;
        self.came[b.to as usize] += amount;
        self.ordered[b.to as usize] += ordered_amount(b);
    }

    // Takes a booking from the running sums of its two accounts again.
    pub fn debit(&mut self, b: Booking)
        requires from { b.from < self.old.count }
        requires to { b.to < self.old.count }
        requires left { live (booked b) ≤ slice_index self.old.left.now b.from }
        requires came { live (booked b) ≤ slice_index self.old.came.now b.to }
        requires ordered { live_order (booked b) ≤ slice_index self.old.ordered.now b.to }
        ensures { Debited self.old self.new (booked b) }
    {
        let amount = live_amount(b);
        self.left[b.from as usize] -= amount;
        self.came[b.to as usize] -= amount;
        self.ordered[b.to as usize] -= ordered_amount(b);
    }
}
