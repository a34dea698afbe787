// lives: plays lives of one book, one after another on one image in memory, each cut elsewhere, and prints what was heard in each and what the book answers afterwards.
#![tactic(auto)]

use anyhow::anyhow;
use life::lent::Lent;
use life::life;
use store::lines::{row_of, say_all};
use store::memory::Memory;
use store::{BLOCK, LIMITS};

// The device: 272 blocks.
const IMAGE: usize = 139_264;

// The answers to three calls.
const SAID: usize = 51;

// Acts enough for three calls.
const WHOLE: u64 = 9;

// A life: three lines of calls, how many acts are done before power is lost, and what is then left of an unflushed write: 0 the block as it was, 1 as it was written.
#[derive(Clone, Copy)]
struct Life {
    heading: &'static str,
    lines: [&'static str; 3],
    budget: u64,
    row: &'static [u64],
}

// The lives. A call that changes the book has three acts: write, flush, answer.
const LIVES: [Life; 8] = [
    Life {
        heading: "whole: two accounts are opened, and 1000000 moved",
        lines: ["open 0 0", "open 5000 0", "move 0 from 0 to 2 1000000"],
        budget: WHOLE,
        row: &[],
    },
    Life {
        heading: "100000 moved, cut before the write",
        lines: ["move 0 from 0 to 2 100000", "taken", "sums"],
        budget: 0,
        row: &[],
    },
    Life {
        heading: "10000 moved, cut between write and flush: the block is as it was",
        lines: ["move 0 from 0 to 2 10000", "taken", "sums"],
        budget: 1,
        row: &[0],
    },
    Life {
        heading: "1000 moved, cut between write and flush: the block is as it was written",
        lines: ["move 0 from 0 to 2 1000", "taken", "sums"],
        budget: 1,
        row: &[1],
    },
    Life {
        heading: "100 moved, cut between flush and answer",
        lines: ["move 0 from 0 to 2 100", "taken", "sums"],
        budget: 2,
        row: &[],
    },
    Life {
        heading: "10 moved, cut after the answer",
        lines: ["move 0 from 0 to 2 10", "taken", "sums"],
        budget: 3,
        row: &[],
    },
    Life {
        heading: "whole: refused are more than account 2 has, an account that is not there, and an amount of 0",
        lines: [
            "move 0 from 2 to 3 1001111",
            "move 0 from 0 to 4 1",
            "move 0 from 0 to 2 0",
        ],
        budget: WHOLE,
        row: &[],
    },
    Life {
        heading: "whole: account 2 is emptied, and account 3 uses its limit, but no more",
        lines: [
            "move 0 from 2 to 0 1001110",
            "move 0 from 3 to 2 5000",
            "move 0 from 3 to 2 1",
        ],
        budget: WHOLE,
        row: &[],
    },
];

// What is asked after each.
const QUESTIONS: Life = Life {
    heading: "afterwards",
    lines: ["taken", "sums", "balance 2 0 0"],
    budget: WHOLE,
    row: &[],
};

// Plays a life under its heading: carries out its calls on the image until the budget of acts is used up and power is lost, and prints what was heard.
fn play(rt: &HostRuntime, image: &mut [u8], of: Life) -> anyhow::Result<()> {
    let heap = rt.alloc();
    let heading = of.heading;
    println!(rt; "{heading}")?;
    let rows: Vec<Vec<u8>> = of
        .lines
        .iter()
        .map(|line| row_of(heap, *line))
        .try_collect(heap)?;
    let calls: Vec<&[u8]> = rows.iter().map(|row| row.as_slice()).collect(heap)?;
    let mut memory = Memory::new(heap, LIMITS)?;
    let mut places = [0];
    let mut blocks = [0; BLOCK];
    let lent = Lent::of(memory.lend(), &mut places, &mut blocks);
    let mut said = [0; SAID];
    let Ok(heard) = life(LIMITS, lent, image, &mut said, &calls, of.budget, of.row) else {
        return Err(anyhow!("the book cannot be opened"));
    };
    say_all(rt, &said[..heard.bytes.min(SAID)], heard.answers)
}

// Plays all lives on one image, and asks after each.
fn play_all(rt: &HostRuntime, image: &mut [u8]) -> anyhow::Result<()> {
    for life in LIVES {
        play(rt, image, life)?;
        play(rt, image, QUESTIONS)?;
    }
    Ok(())
}

fn run(rt: &HostRuntime) -> anyhow::Result<()> {
    let mut image = [0; IMAGE];
    play_all(rt, &mut image)
}

fn main(rt: HostRuntime) -> anyhow::Result<()> {
    run(&rt)
}
