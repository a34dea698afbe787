// Opening a book on which calls can be taken.
ghost use Rattle.std.specs.Prelude.{◌≡◌, true};
ghost use Rattle.bank.specs.Promise.{allowed};
ghost use Rattle.model.specs.Whole.{ReachedRegister};
ghost use Rattle.columns.specs.Sizes.{limits_of};
ghost use Rattle.ledger.specs.Meaning.{limits, register};
ghost use Rattle.ledger.specs.Opened.{Opened};
ghost use Rattle.desk.specs.Desk.{OpenedKept};
ghost use Rattle.desk.specs.Opening.{ledger_of};

use crate::Book;
use columns::limits::Limits;
use ledger::Ledger;
use ledger::opening::Refused;

// Opens a new book in lent memory, as a ledger on which calls can be taken.
#[tactic(auto, using(crate::proofs::Beginning::opened_kept))]
pub fn open<'a>(
    limits: Limits,
    cents: &'a mut [u64],
    numbers: &'a mut [u32],
) -> Result<Ledger<'a>, Refused<'a>>
    ensures opened { Opened (limits_of limits) cents.old numbers.old result }
    ensures kept { OpenedKept result }
{
    Ledger::open(limits, cents, numbers)
}

impl<'a> Book<'a> {
    // Opens a new book in lent memory.
    pub fn open(
        limits: Limits,
        cents: &'a mut [u64],
        numbers: &'a mut [u32],
    ) -> Result<Book<'a>, Refused<'a>>
        ensures opened { Opened (limits_of limits) cents.old numbers.old (ledger_of result) }
        ensures kept { OpenedKept (ledger_of result) }
    {
        let ledger = open(limits, cents, numbers)?;
        Ok(Book { ledger })
    }

    // The book of a ledger that calls brought about, under limits that may be given.
    pub fn of(ledger: Ledger<'a>) -> Book<'a>
        requires allows { allowed (limits ledger) ≡ true }
        requires reached { ∥ ReachedRegister (limits ledger) (register ledger) ∥₁ }
        ensures { result.ledger ≡ ledger.entry }
    {
        Book { ledger }
    }

    // Its ledger, to be gone on with.
    pub fn into_ledger(self) -> Ledger<'a>
        ensures { result ≡ self.entry.ledger }
    {
        self.ledger
    }
}
