// Days, value days, what was known when, taking back, rates and statements; how books went wrong before.
ghost use Rattle.desk.specs.Desk.{Kept, Onward};

use crate::rows::*;
use desk::refusal::Refusal;
use desk::statement::Statement;
use desk::{account, ask, day, opening, order, taking_back};
use ledger::Ledger;
use std::process::Abort;
use wire::answer::Answer;
use wire::call::Call;

// How many lines a statement has.
fn statement(ledger: &Ledger, account: u64, first: u64, last: u64) -> Result<Answer, Refusal>
    requires { Kept ledger.now }
{
    let begun = Statement::begin(ledger, account, first, last)?;
    Ok(Answer::Lines {
        count: begun.count(ledger),
    })
}

// Takes a call of any stage, or turns it away.
fn serve(ledger: &mut Ledger, call: Call) -> Result<Answer, Refusal>
    requires { Kept ledger.old }
    ensures kept { Kept ledger.new }
    ensures onward { Onward ledger.old ledger.new }
{
    match call {
        Call::Open { limit, rate } => account::open(ledger, limit, rate),
        Call::Rate { account, rate } => account::set_rate(ledger, account, rate),
        Call::Move {
            value,
            from,
            to,
            amount,
        } => order::order(ledger, value, from, to, amount),
        Call::TakeBack { booking } => taking_back::take_back(ledger, booking),
        Call::DayEnds => day::end_day(ledger),
        Call::Statement {
            account,
            first,
            last,
        } => statement(ledger, account, first, last),
        _ => Ok(ask(ledger, call)),
    }
}

// Takes a call of any stage: its answer.
fn take_any(ledger: &mut Ledger, call: Call) -> Answer
    requires { Kept ledger.old }
    ensures kept { Kept ledger.new }
    ensures onward { Onward ledger.old ledger.new }
{
    serve(ledger, call).unwrap_or_else(Answer::from)
}

// Takes the calls of a table one after another: each has its answer.
fn take_each(rt: &impl Abort, ledger: &mut Ledger, rows: &[Row])
    requires { Kept ledger.old }
    ensures kept { Kept ledger.new }
    ensures onward { Onward ledger.old ledger.new }
{
    for row in rows {
        let (ask, numbers, answer) = *row;
        assert_eq!(rt; told(take_any(ledger, call_of(ask, numbers))), answer);
    }
}

// The lines of a statement: amount, value day, day on which it was booked, and mark.
pub const LINES: [(u64, u32, u32, Option<u32>); 2] = [
    (400_000, 0, 1, Some(2)),
    (5_000, 2, 2, None),
];

// A statement hands out these lines, oldest first, and then no more.
fn check_lines(rt: &impl Abort, ledger: &Ledger, mut statement: Statement)
    requires { Kept ledger.now }
{
    for line in &LINES {
        let b = statement.next_line(ledger).expect(rt, "a line");
        assert_eq!(rt; (b.amount, b.value, b.on, b.back), *line);
    }
    assert_eq!(rt; statement.count(ledger), 0);
    assert!(rt; statement.next_line(ledger).is_none());
}

pub const DAYS: [Row; 48] = [
    (Ask::Open, [0, 2_001, 0, 0], [0, 2, 1]),
    (Ask::Open, [0, 365, 0, 0], [1, 2, 0]),
    (Ask::Open, [5_000, 2_000, 0, 0], [1, 3, 0]),
    (Ask::Rate, [9, 2_001, 0, 0], [0, 2, 1]),
    (Ask::Rate, [4, 2_000, 0, 0], [0, 4, 0]),
    (Ask::Rate, [u64::MAX, 0, 0, 0], [0, 4, 0]),
    (Ask::Rate, [3, 0, 0, 0], [1, 0, 0]),
    (Ask::Rate, [2, 2_000, 0, 0], [1, 0, 0]),
    (Ask::Rate, [2, 365, 0, 0], [0, 10, 0]),
    (Ask::Move, [0, 0, 2, 1_000_000], [1, 0, 0]),
    (Ask::Move, [1, 0, 2, 1], [0, 6, 0]),
    (Ask::Move, [u64::MAX, 0, 2, 1], [0, 6, 0]),
    (Ask::DayEnds, [0; 4], [1, 1, 0]),
    (Ask::Move, [0, 2, 3, 400_000], [1, 1, 0]),
    (Ask::Move, [2, 2, 3, 1], [0, 6, 0]),
    (Ask::Move, [2, 2, 3, 600_001], [0, 6, 0]),
    // what was known at the end of day 0 stays so
    (Ask::Balance, [2, 0, 0, 0], [2, 1_000_000, 0]),
    (Ask::Balance, [2, 0, 1, 0], [2, 1_000_000, 400_000]),
    (Ask::Balance, [3, 0, 0, 0], [2, 0, 0]),
    (Ask::Balance, [3, 0, 1, 0], [2, 400_000, 0]),
    (Ask::Balance, [3, 0, 2, 0], [0, 9, 2]),
    (Ask::TakeBack, [2, 0, 0, 0], [0, 8, 0]),
    (Ask::TakeBack, [u64::MAX, 0, 0, 0], [0, 8, 0]),
    (Ask::DayEnds, [0; 4], [1, 2, 0]),
    (Ask::Move, [2, 3, 0, 405_001], [0, 7, 1]),
    (Ask::Move, [2, 3, 0, 5_000], [1, 2, 0]),
    // once, and not twice
    (Ask::TakeBack, [1, 0, 0, 0], [1, 1, 0]),
    (Ask::TakeBack, [1, 0, 0, 0], [0, 8, 0]),
    (Ask::Move, [2, 3, 0, 1], [0, 7, 1]),
    (Ask::Balance, [2, 2, 1, 0], [2, 1_000_000, 400_000]),
    (Ask::Balance, [2, 2, 2, 0], [2, 1_000_000, 0]),
    (Ask::Balance, [3, 2, 2, 0], [2, 0, 5_000]),
    (Ask::Balance, [3, 1, 2, 0], [2, 0, 0]),
    (Ask::DayEnds, [0; 4], [1, 3, 0]),
    (Ask::TakeBack, [1, 0, 0, 0], [0, 8, 0]),
    (Ask::Balance, [2, 3, 1, 0], [2, 1_000_000, 400_000]),
    (Ask::Statement, [2, 0, 3, 0], [3, 2, 0]),
    (Ask::Statement, [2, 0, 0, 0], [3, 1, 0]),
    (Ask::Statement, [2, 1, 1, 0], [3, 1, 0]),
    (Ask::Statement, [2, 2, u64::MAX, 0], [3, 0, 0]),
    (Ask::Statement, [2, 1, 0, 0], [3, 0, 0]),
    (Ask::Statement, [3, 0, u64::MAX, 0], [3, 2, 0]),
    (Ask::Statement, [1, 0, u64::MAX, 0], [3, 0, 0]),
    (Ask::Statement, [4, 0, 0, 0], [0, 4, 0]),
    (Ask::Statement, [u64::MAX, 1, 0, 0], [0, 4, 0]),
    (Ask::Sums, [0; 4], [2, 1_005_000, 1_005_000]),
    (Ask::Taken, [0; 4], [1, 11, 0]),
    (Ask::Move, [0, 0, 2, 100_000_000_000], [0, 10, 0]),
];

#[test]
fn days_and_what_was_known(rt: HostRuntime) {
    let mut cents = [0u64; 64];
    let mut numbers = [0u32; 128];
    let Ok(mut ledger) = opening::open(limits(4, 4, 4), &mut cents, &mut numbers) else {
        panic!(rt; "no book");
    };
    take_each(&rt, &mut ledger, &DAYS);
    let statement = Statement::begin(&ledger, 3, 1, 2)
        .ok()
        .expect(&rt, "a statement");
    check_lines(&rt, &ledger, statement);
}

// Begins days of a book, month by month, with no interest booked.
fn pass_days(ledger: &mut Ledger, days: u32) {
    for _day in 0..days {
        if ledger.today() < 3_650 {
            ledger.begin_day();
        }
    }
}

// Days, and those of them that an order of day 61 may have as its value day.
const VALUE_DAYS: [(u64, Option<u32>); 5] = [
    (0, None),
    (1, Some(1)),
    (61, Some(61)),
    (62, None),
    (u64::MAX, None),
];

fn check_value_days(rt: &impl Abort, ledger: &Ledger) {
    for row in &VALUE_DAYS {
        let (day, found) = *row;
        assert_eq!(rt; ledger.value_day(day), found);
    }
}

#[test]
fn value_days(rt: HostRuntime) {
    let mut cents = [0u64; 64];
    let mut numbers = [0u32; 128];
    let Ok(mut ledger) = opening::open(limits(2, 0, 0), &mut cents, &mut numbers) else {
        panic!(rt; "no book");
    };
    pass_days(&mut ledger, 61);
    check_value_days(&rt, &ledger);
}
