// Calls, answers and journal rows by examples: tables of bytes, good and bad.
#![tactic(auto)]

#[cfg(test)]
mod answers;
#[cfg(test)]
mod calls;
#[cfg(test)]
mod rows;
