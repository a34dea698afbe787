// The columns of the book in lent memory: accounts with their running sums, rates, bookings, the chains through them, and scratch cells.
// A table is a column for each field, since a core without a heap is lent plain cells of u64 and u32.
// Each has its own count and capacity: a type for the two would put a third name before both at every use.
#![tactic(auto)]

pub mod accounts;
pub mod bookings;
pub mod chains;
pub mod limits;
pub mod rates;
pub mod scratch;
pub mod shares;
