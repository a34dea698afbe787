// Opening a book: lent memory is cut into columns once, in this order.
//
// | lent | column | cells |
// |---|---|---|
// | cents, 8 bytes a cell | limit | accounts |
// | | came | accounts |
// | | left | accounts |
// | | ordered | accounts |
// | | scratch: balance | accounts |
// | | scratch: units | accounts |
// | | amount | bookings |
// | numbers, 4 bytes a cell | newest booking to an account | accounts |
// | | the one before a booking to the same account | bookings |
// | | newest booking from an account | accounts |
// | | the one before a booking from the same account | bookings |
// | | scratch: rate of the day | accounts |
// | | rates: account, since, rate | rates, for each |
// | | bookings: on, value, from, to, kind, back | bookings, for each |
ghost use Rattle.std.specs.Prelude.{◌≡◌};
ghost use Rattle.columns.specs.Sizes.{limits_of};
ghost use Rattle.ledger.specs.Opened.{place_of, misfit, Opened};

use crate::Ledger;
use columns::accounts::Accounts;
use columns::bookings::Bookings;
use columns::chains::Chains;
use columns::limits::Limits;
use columns::rates::Rates;
use columns::scratch::Scratch;

// What does not fit at opening.
#[derive(Clone, Copy, Debug, PartialEq, Eq)]
pub enum Misfit {
    // lent memory is too short
    Memory = 0,
    // the device is too short, or holds no such book
    Device = 1,
    // the limits are not allowed
    Bounds = 2,
}

impl Misfit {
    // Its place in the refusal.
    pub fn place(self) -> u64
        ensures { result ≡ place_of self }
    {
        self as u64
    }
}

// An opening that was refused: what does not fit, and the lent memory as it was.
#[derive(Drop)]
pub struct Refused<'a> {
    pub misfit: Misfit,
    pub cents: &'a mut [u64],
    pub numbers: &'a mut [u32],
}

// What does not fit, if a book with these limits is to be opened in so many cells. No `Result`: what refuses by it hands the lent memory back too.
pub fn what_misfits(limits: Limits, cents: usize, numbers: usize) -> Option<Misfit>
    ensures { result ≡ misfit (limits_of limits) cents numbers }
{
    if !limits.are_allowed() {
        return Some(Misfit::Bounds);
    }
    let fits = limits.cents_needed() <= cents && limits.numbers_needed() <= numbers;
    (!fits).then_some(Misfit::Memory)
}

impl<'a> Ledger<'a> {
    // Opens a new book: the till and the bank's own account, on day 0.
    pub fn open(
        limits: Limits,
        cents: &'a mut [u64],
        numbers: &'a mut [u32],
    ) -> Result<Ledger<'a>, Refused<'a>>
        ensures { Opened (limits_of limits) cents.old numbers.old result }
    {
        if let Some(misfit) = what_misfits(limits, cents.len(), numbers.len()) {
            return Err(Refused {
                misfit,
                cents,
                numbers,
            });
        }
        let accounts = limits.accounts as usize;
        let bookings = limits.bookings as usize;
        let rates = limits.rates as usize;
        let (running, rest) = cents.split_at_mut(4 * accounts);
        let (spare, amounts) = rest.split_at_mut(2 * accounts);
        let (links, rest) = numbers.split_at_mut(2 * (accounts + bookings));
        let (spare_rates, rest) = rest.split_at_mut(accounts);
        let (rated, booked) = rest.split_at_mut(3 * rates);
        Ok(Ledger {
            accounts: Accounts::lay(running, accounts),
            rates: Rates::lay(rated, rates),
            bookings: Bookings::lay(amounts, booked, bookings),
            chains: Chains::lay(links, accounts, bookings),
            scratch: Scratch::lay(spare, spare_rates, accounts),
            today: 0,
            done: 0,
        })
    }
}
