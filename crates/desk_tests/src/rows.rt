// Rows of a table: a call, and its answer as three numbers.
//
// | first | answer | second | third |
// |---|---|---|---|
// | 0 | refused | the refusal's number | the place |
// | 1 | a number | the number | 0 |
// | 2 | amounts | what came | what left |
// | 3 | lines | how many | 0 |
ghost use Rattle.desk.specs.Desk.{Kept, Onward};

use columns::limits::Limits;
use desk::{opening, take};
use ledger::Ledger;
use std::process::Abort;
use wire::answer::Answer;
use wire::call::Call;

// What is asked for: a call without its numbers. A constant calls no function, and a call written out takes several lines, so a row of a table has the numbers beside.
#[derive(Clone, Copy)]
pub enum Ask {
    Open,
    Rate,
    Move,
    TakeBack,
    DayEnds,
    Balance,
    Statement,
    Sums,
    Taken,
}

// A call by its numbers, in their order and zeros behind them, and its answer.
pub type Row = (Ask, [u64; 4], [u64; 3]);

// The call of a row.
pub fn call_of(ask: Ask, numbers: [u64; 4]) -> Call {
    let [a, b, c, d] = numbers;
    match ask {
        Ask::Open => Call::Open { limit: a, rate: b },
        Ask::Rate => Call::Rate {
            account: a,
            rate: b,
        },
        Ask::Move => Call::Move {
            value: a,
            from: b,
            to: c,
            amount: d,
        },
        Ask::TakeBack => Call::TakeBack { booking: a },
        Ask::DayEnds => Call::DayEnds,
        Ask::Balance => Call::Balance {
            account: a,
            value: b,
            known: c,
        },
        Ask::Statement => Call::Statement {
            account: a,
            first: b,
            last: c,
        },
        Ask::Sums => Call::Sums,
        Ask::Taken => Call::Taken,
    }
}

// An answer as three numbers.
pub fn told(answer: Answer) -> [u64; 3] {
    match answer {
        Answer::Refused { reason, place } => [0, reason, place],
        Answer::Number(n) => [1, n, 0],
        Answer::Amounts { came, left } => [2, came, left],
        Answer::Lines { count } => [3, count, 0],
    }
}

// Does a call that is answered so change the book?
fn changes(ask: Ask, answer: [u64; 3]) -> bool {
    match ask {
        Ask::Balance | Ask::Statement | Ask::Sums | Ask::Taken => false,
        _ => answer[0] == 1,
    }
}

// Takes the calls of a table one after another: each has its answer, and is counted only if it changes the book.
fn take_all(rt: &impl Abort, ledger: &mut Ledger, rows: &[Row])
    requires { Kept ledger.old }
    ensures kept { Kept ledger.new }
    ensures onward { Onward ledger.old ledger.new }
{
    for row in rows {
        let (ask, numbers, answer) = *row;
        let done = ledger.done();
        let outcome = take(ledger, call_of(ask, numbers));
        assert_eq!(rt; told(outcome.answer()), answer);
        assert_eq!(rt; outcome.changed(), changes(ask, answer));
        assert_eq!(rt; ledger.done() > done, outcome.changed());
    }
}

// So of a new book with these limits, for which there is memory.
pub fn run(rt: &impl Abort, limits: Limits, rows: &[Row]) {
    let mut cents = [0u64; 64];
    let mut numbers = [0u32; 128];
    let Ok(mut ledger) = opening::open(limits, &mut cents, &mut numbers) else {
        panic!(rt; "no book");
    };
    take_all(rt, &mut ledger, rows);
}

// Limits that a book is opened with.
pub fn limits(accounts: u32, rates: u32, bookings: u32) -> Limits {
    Limits {
        accounts,
        rates,
        bookings,
    }
}
