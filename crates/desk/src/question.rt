// Questions: they take the ledger by a shared reference, so nothing of it can change.
ghost use Rattle.std.specs.Prelude.{[]};
ghost use Rattle.bank.specs.Calls.{balance, sums, taken_so_far};
ghost use Rattle.wire.specs.Answered.{answered};
ghost use Rattle.desk.specs.Desk.{Asked, Kept, reply};

use crate::refusal::Refusal;
use ledger::Ledger;
use wire::answer::Answer;

// What came to an account and what left it, by a value day, as known at the end of a day.
pub(crate) fn balance(
    ledger: &Ledger,
    account: u64,
    value: u64,
    known: u64,
) -> Result<Answer, Refusal>
    requires { Kept ledger.now }
    ensures { Asked ledger.now (balance account value known) (reply result) }
{
    let Some(account) = ledger.account(account) else {
        return Err(Refusal::Account { field: 0 });
    };
    let Some(known) = ledger.known_day(known) else {
        return Err(Refusal::NotYetKnown);
    };
    let value = ledger.last_value(value);
    Ok(Answer::Amounts {
        came: ledger.came(account, value, known),
        left: ledger.left(account, value, known),
    })
}

// What came to all accounts and what left all, by today as known today.
pub(crate) fn sums(ledger: &Ledger) -> Answer
    requires { Kept ledger.now }
    ensures { Asked ledger.now sums (answered result []) }
{
    let (came, left) = ledger.sums();
    Answer::Amounts { came, left }
}

// How many calls were taken that changed the book.
pub(crate) fn taken(ledger: &Ledger) -> Answer
    requires { Kept ledger.now }
    ensures { Asked ledger.now taken_so_far (answered result []) }
{
    Answer::Number(ledger.done())
}
