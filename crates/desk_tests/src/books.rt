// A book by its own calls: what a lent ledger answers, it answers.
use crate::days::{DAYS, LINES};
use crate::rows::*;
use desk::Book;
use desk::refusal::Refusal;
use desk::statement::Statement;
use std::process::Abort;
use wire::answer::Answer;
use wire::call::Call;

// How many lines a statement has.
fn statement(book: &Book, account: u64, first: u64, last: u64) -> Result<Answer, Refusal> {
    let begun = book.statement(account, first, last)?;
    Ok(Answer::Lines {
        count: book.line_count(begun),
    })
}

// Takes a call of any stage: its answer.
fn take_any(book: &mut Book, call: Call) -> Answer {
    let res = match call {
        Call::Open { limit, rate } => book.open_account(limit, rate),
        Call::Rate { account, rate } => book.set_rate(account, rate),
        Call::Move {
            value,
            from,
            to,
            amount,
        } => book.order(value, from, to, amount),
        Call::TakeBack { booking } => book.take_back(booking),
        Call::DayEnds => book.end_day(),
        Call::Statement {
            account,
            first,
            last,
        } => statement(book, account, first, last),
        _ => Ok(book.ask(call)),
    };
    res.unwrap_or_else(Answer::from)
}

// Takes the calls of a table one after another: each has its answer.
fn take_each(rt: &impl Abort, book: &mut Book, rows: &[Row]) {
    for row in rows {
        let (ask, numbers, answer) = *row;
        assert_eq!(rt; told(take_any(book, call_of(ask, numbers))), answer);
    }
}

// A statement hands out its lines, oldest first, and then no more.
fn check_lines(rt: &impl Abort, book: &Book, mut statement: Statement) {
    for line in &LINES {
        let b = book.next_line(&mut statement).expect(rt, "a line");
        assert_eq!(rt; (b.amount, b.value, b.on, b.back), *line);
    }
    assert_eq!(rt; book.line_count(statement), 0);
    assert!(rt; book.next_line(&mut statement).is_none());
}

#[test]
fn days_of_a_book(rt: HostRuntime) {
    let mut cents = [0u64; 64];
    let mut numbers = [0u32; 128];
    let Ok(mut book) = Book::open(limits(4, 4, 4), &mut cents, &mut numbers) else {
        panic!(rt; "no book");
    };
    take_each(&rt, &mut book, &DAYS);
    let statement = book.statement(3, 1, 2).ok().expect(&rt, "a statement");
    check_lines(&rt, &book, statement);
}

// Days of which no month ends but on the last.
const MONTH: u64 = 30;

#[test]
fn the_end_of_a_month_is_not_there_yet(rt: HostRuntime) {
    let mut cents = [0u64; 64];
    let mut numbers = [0u32; 128];
    let Ok(mut book) = Book::open(limits(2, 0, 0), &mut cents, &mut numbers) else {
        panic!(rt; "no book");
    };
    for _day in 1..MONTH {
        assert!(rt; !book.ends_month());
        assert_eq!(rt; told(take_any(&mut book, Call::DayEnds)), [1, 0, 0]);
    }
    assert!(rt; book.ends_month());
    assert_eq!(rt; told(take_any(&mut book, Call::DayEnds)), [0, 1, 0]);
    let ledger = Book::of(book.into_ledger()).into_ledger();
    assert_eq!(rt; ledger.done(), MONTH - 1);
}
