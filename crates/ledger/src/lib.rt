// The book of a bank in lent memory: opening, effects, checks in one step, balances and sums.
// That an account is there stands at each function that reads it: no type of its number could tell of which book it is.
#![tactic(auto)]

ghost use Rattle.std.specs.Prelude.{ℕ, ◌<◌, ◌≤◌, slice_index};
ghost use Rattle.std.proofs.Props.{props};
ghost use Rattle.columns.specs.Cells.{Sums};
ghost use Rattle.columns.specs.Links.{Linkable, Chained};
ghost use Rattle.columns.specs.RateRows.{Rated};
ghost use Rattle.columns.specs.Rows.{row, rows};
ghost use Rattle.columns.specs.Spare.{Spare};
ghost use Rattle.ledger.specs.Facts.{Fit, backs, most_calls};

use columns::accounts::Accounts;
use columns::bookings::Bookings;
use columns::chains::Chains;
use columns::rates::Rates;
use columns::scratch::Scratch;

pub mod balances;
pub mod checks;
pub mod effects;
pub mod opening;
pub mod restoring;
pub mod views;

// A bank's book in the columns that it was cut into.
#[derive(Drop)]
pub struct Ledger<'a> {
    accounts: Accounts<'a>,
    rates: Rates<'a>,
    bookings: Bookings<'a>,
    chains: Chains<'a>,
    // cells for a month's end, which mean nothing between two calls
    pub scratch: Scratch<'a>,
    today: u32,
    // how many calls were taken that changed the book
    done: u64,
    // no limit passes 10 ^ 11
    pub ghost small: { (a : ℕ) → a < accounts.count → slice_index accounts.limit.now a ≤ 100000000000 },
    // each rate is of an account that is there
    pub ghost owners: { Rated rates accounts.count } by { Prim.hlevel props },
    // each booking is between accounts that are there, and not dated after today
    pub ghost fit: { (i : ℕ) → i < bookings.count → Fit today accounts.count (row bookings i) } by { Prim.hlevel props },
    // the running sums are those of the bookings that are not taken back
    pub ghost sums: { Sums accounts (rows bookings) } by { Prim.hlevel props },
    // the chains have room for all accounts and bookings, and lead through them by both sides
    pub ghost linkable: { Linkable chains accounts.capacity bookings.capacity } by { Prim.hlevel props },
    pub ghost incoming: { Chained chains.incoming (λ i. (row bookings i).to) bookings.count accounts.count } by { Prim.hlevel props },
    pub ghost outgoing: { Chained chains.outgoing (λ i. (row bookings i).from) bookings.count accounts.count } by { Prim.hlevel props },
    // there are scratch cells for all accounts
    pub ghost spare: { Spare scratch accounts.capacity } by { Prim.hlevel props },
    pub ghost last_day: { today ≤ 3650 },
    // no more calls were counted than changes can have used up
    pub ghost most: { done ≤ most_calls rates.count bookings.count (backs (rows bookings)) today },
}
