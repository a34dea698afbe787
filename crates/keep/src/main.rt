// keep DEVICE CALLS [BUDGET [ROW]]: keeps a book in a file of blocks. Each line of the file of calls is answered by a line of numbers, which is out before the next call
// begins. With a budget it stops after so many acts, as a cut does; the file ROW has a number for each block that was written since the last flush: 0 leaves it as it was, n
// as the n-th write to it made it.
#![tactic(auto)]

use anyhow::anyhow;
use cut::keep_cut;
use ledger::opening::Misfit;
use session::opening::blocks_needed;
use session::{Next, Session};
use std::{env, fs};
use store::lines::{read_row, say};
use store::memory::Memory;
use store::{LIMITS, Store, open_book};
use text::line::LONGEST;

mod cut;

const USAGE: &str = "usage: keep DEVICE CALLS [BUDGET [ROW]]";

// Prints that the book cannot be opened, by the place of what does not fit.
fn refuse(rt: &HostRuntime, misfit: Misfit) -> anyhow::Result<()> {
    let place = misfit.place();
    println!(rt; "0 3 {place}")?;
    Err(anyhow!("the book cannot be opened"))
}

// A session, and the file that its acts are done on.
#[derive(Drop)]
struct Keeper<'a> {
    session: Session<'a>,
    store: Store,
}

impl Keeper<'_> {
    // Does what is to be done: a block is on the disk before anything is said.
    fn perform(&mut self, rt: &HostRuntime) -> anyhow::Result<()> {
        let mut place = 0;
        loop {
            match self.session.next_act() {
                Next::Write(k) => place = k,
                Next::Flush => self.store.write(place, self.session.block())?,
                Next::Say(n) => match self.session.answer_bytes().get(..n) {
                    Some(answer) => say(rt, answer)?,
                    None => return Err(anyhow!("an answer without bytes")),
                },
                Next::Done => return Ok(()),
            }
        }
    }

    // Answers all lines.
    fn answer_all(&mut self, rt: &HostRuntime, calls: &str) -> anyhow::Result<()> {
        for line in calls.lines() {
            self.session.call(read_row(line, &mut [0; LONGEST]));
            self.perform(rt)?;
        }
        Ok(())
    }
}

// Keeps the book of a device.
fn keep(rt: &HostRuntime, device: &str, calls: &str) -> anyhow::Result<()> {
    let mut store = Store::open(rt, device, blocks_needed(LIMITS))?;
    let mut memory = Memory::new(rt.alloc(), LIMITS)?;
    match open_book(&mut store, &mut memory) {
        Ok(session) => Keeper { session, store }.answer_all(rt, calls),
        Err(misfit) => refuse(rt, misfit),
    }
}

// The numbers of a text, between blanks.
fn numbers_in(rt: &HostRuntime, text: &str) -> anyhow::Result<Vec<u64>> {
    text.split_whitespace()
        .map(|word| -> anyhow::Result<u64> { Ok(word.parse::<u64>()?) })
        .try_collect(rt.alloc())
}

// Keeps the book with a budget, and a row of numbers if there is a file of them.
fn keep_until(
    rt: &HostRuntime,
    device: &str,
    calls: &str,
    budget: &str,
    row: Option<String>,
) -> anyhow::Result<()> {
    let budget = budget.parse::<u64>()?;
    let numbers = match row {
        Some(path) => {
            let text = fs::read_to_string(rt, path.as_str())?;
            numbers_in(rt, text.as_str())?
        }
        None => Vec::new(rt.alloc()),
    };
    let made = Store::open(rt, device, blocks_needed(LIMITS))?;
    drop(made);
    keep_cut(rt, device, calls, budget, numbers.as_slice())
}

fn run(rt: &HostRuntime) -> anyhow::Result<()> {
    let mut words = env::args(rt)?;
    let _program = words.next();
    let (Some(device), Some(calls)) = (words.next(), words.next()) else {
        return Err(anyhow!(USAGE));
    };
    let budget = words.next();
    let row = words.next();
    if words.next().is_some() {
        return Err(anyhow!(USAGE));
    }
    let text = fs::read_to_string(rt, calls.as_str())?;
    match budget {
        Some(budget) => keep_until(rt, device.as_str(), text.as_str(), budget.as_str(), row),
        None => keep(rt, device.as_str(), text.as_str()),
    }
}

fn main(rt: HostRuntime) -> anyhow::Result<()> {
    run(&rt)
}
