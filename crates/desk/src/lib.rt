// Taking a call, or turning it away: the refusal list in its order, then the change and its answer. Each check hands on its value, or its refusal is returned, by
// `let .. else`: all checks of this crate have that one form.
#![tactic(auto)]

ghost use Rattle.std.specs.Prelude.{◌≡◌, true, []};
ghost use Rattle.bank.specs.Promise.{allowed};
ghost use Rattle.model.specs.Whole.{ReachedRegister};
ghost use Rattle.ledger.specs.Meaning.{limits, register};
ghost use Rattle.wire.specs.Answered.{answered};
ghost use Rattle.wire.specs.Meaning.{meant};
ghost use Rattle.desk.specs.Desk.{AskedFirst, Kept, OutcomeOf, ServedFirst, answer_in, changed_in, reply, took};

use ledger::Ledger;
use refusal::Refusal;
use wire::answer::Answer;
use wire::call::Call;

pub mod account;
pub mod day;
pub mod opening;
pub mod order;
mod question;
pub mod refusal;
pub mod statement;
pub mod taking_back;

// The most cents that an order moves, that a limit has, and that orders bring to one account.
const MOST: u64 = 100_000_000_000;

// A book on which calls can be taken: calls brought it about, under limits that may be given.
#[derive(Drop)]
pub struct Book<'a> {
    ledger: Ledger<'a>,
    pub ghost allows: { allowed (limits ledger) ≡ true },
    pub ghost reached: { ∥ ReachedRegister (limits ledger) (register ledger) ∥₁ },
}

// What a call came to: its answer, and whether it changed the book.
#[derive(Clone, Copy, Debug, PartialEq, Eq)]
pub enum Outcome {
    Changed(Answer),
    Unchanged(Answer),
}

impl Outcome {
    // What is answered.
    pub fn answer(self) -> Answer
        ensures { result ≡ answer_in self }
    {
        match self {
            Outcome::Changed(answer) | Outcome::Unchanged(answer) => answer,
        }
    }

    // Did the book change?
    pub fn changed(self) -> bool
        ensures { result ≡ changed_in self }
    {
        matches!(self, Outcome::Changed(_))
    }
}

// The outcome of a call that changes the book if it is taken.
impl From<Result<Answer, Refusal>> for Outcome {
    ghost from_gives = { λ res outcome. OutcomeOf outcome (reply res) (took res) };

    fn from(res: Result<Answer, Refusal>) -> Outcome {
        match res {
            Ok(answer) => Outcome::Changed(answer),
            Err(refusal) => Outcome::Unchanged(Answer::from(refusal)),
        }
    }
}

// Answers a question of the first stage, or turns it away; a call that is none of these is not there yet.
fn asked(ledger: &Ledger, call: Call) -> Result<Answer, Refusal>
    requires { Kept ledger.now }
    ensures { AskedFirst ledger.now (meant call) (reply result) }
{
    match call {
        Call::Balance {
            account,
            value,
            known,
        } => question::balance(ledger, account, value, known),
        Call::Sums => Ok(question::sums(ledger)),
        Call::Taken => Ok(question::taken(ledger)),
        _ => Err(Refusal::NotYet),
    }
}

// Answers a question of the first stage; a call that is none of these is not there yet.
pub fn ask(ledger: &Ledger, call: Call) -> Answer
    requires { Kept ledger.now }
    ensures { AskedFirst ledger.now (meant call) (answered result []) }
{
    asked(ledger, call).unwrap_or_else(Answer::from)
}

// Takes a call of the first stage, or turns it away. Calls of a later stage are not there yet.
pub fn take(ledger: &mut Ledger, call: Call) -> Outcome
    requires { Kept ledger.old }
    ensures { ServedFirst ledger.old ledger.new (meant call) (answered (answer_in result) []) (changed_in result) }
{
    match call {
        Call::Open { limit, rate } if rate == 0 => account::open(ledger, limit, rate).into(),
        Call::Move {
            value,
            from,
            to,
            amount,
        } if value == 0 => order::order(ledger, value, from, to, amount).into(),
        _ => Outcome::Unchanged(ask(ledger, call)),
    }
}

impl<'a> Book<'a> {
    // What stands in the book, to be looked at.
    pub fn ledger(&self) -> &Ledger<'a>
        ensures { result.now ≡ self.now.ledger }
    {
        &self.ledger
    }

    // Answers a question of the first stage; a call that is none of these is not there yet.
    pub fn ask(&self, call: Call) -> Answer
        ensures { AskedFirst self.now.ledger (meant call) (answered result []) }
    {
        ask(&self.ledger, call)
    }

    // Takes a call of the first stage, or turns it away. Calls of a later stage are not there yet.
    pub fn take(&mut self, call: Call) -> Outcome
        ensures { ServedFirst self.old.ledger self.new.ledger (meant call) (answered (answer_in result) []) (changed_in result) }
    {
        take(&mut self.ledger, call)
    }
}
