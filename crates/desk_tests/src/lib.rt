// The desk by examples: tables of calls and what they are answered.
#![tactic(auto)]

#[cfg(test)]
mod books;
#[cfg(test)]
mod days;
#[cfg(test)]
mod edges;
#[cfg(test)]
mod rows;
#[cfg(test)]
mod worked;
