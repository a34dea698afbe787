// Calls and answers as lines of text.
#![tactic(auto)]

pub mod answer;
pub mod line;
mod numbers;
mod word;
