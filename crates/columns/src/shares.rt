// What one booking counts for: by value and as known, and in the running sums.
ghost use Rattle.std.specs.Prelude.{◌≡◌};
ghost use Rattle.bank.specs.Book.{known};
ghost use Rattle.columns.specs.Parts.{share, live, live_order};
ghost use Rattle.wire.specs.Booked.{booked};

use crate::chains::Side;
use wire::booking::{Booking, Kind};

// Does it count, as known at the end of a day?
fn known_on(b: Booking, day: u32) -> bool
    ensures { result ≡ known day (booked b) }
{
    b.on <= day && b.back.is_none_or(|back| day < back)
}

// What it moves on a side of an account by a value day, as known at the end of a day.
pub fn share<S: Side>(b: Booking, account: u32, value_day: u32, known_day: u32) -> u64
    ensures { result ≡ share S.party_of known_day account value_day (booked b) }
{
    if known_on(b, known_day) && S::party(b) == account && b.value <= value_day {
        b.amount
    } else {
        0
    }
}

// Its amount, if it was not taken back.
pub fn live_amount(b: Booking) -> u64
    ensures { result ≡ live (booked b) }
{
    match b.back {
        None => b.amount,
        Some(_) => 0,
    }
}

// Its amount, if it is an order that was not taken back.
pub fn ordered_amount(b: Booking) -> u64
    ensures { result ≡ live_order (booked b) }
{
    match b.kind {
        Kind::Order => live_amount(b),
        Kind::Interest => 0,
    }
}
