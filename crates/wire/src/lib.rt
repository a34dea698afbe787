// Calls, answers, bookings and journal rows, as values and as bytes.
#![tactic(auto)]

pub mod answer;
pub mod booking;
pub mod bytes;
pub mod call;
pub mod row;
