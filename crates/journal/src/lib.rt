// The journal: blocks of calls that were taken, and how they are read again.
#![tactic(auto)]

ghost use Rattle.std.specs.Prelude.{◌≡◌, true};
ghost use Rattle.bank.specs.Calls.{Limits as Bounds};
ghost use Rattle.bank.specs.Promise.{allowed};
ghost use Rattle.journal.specs.Recovery.{FirstRecovered, FirstStarts, FirstHasRoom};

pub mod header;
pub mod journal;

// In the first stage recovery refuses no device that reads as calls, reads just those that changed the book, and ends where the program starts; and the journal never fills.
pub fn first_journal_stands() -> u8
    ensures recovered { (l : Bounds) → allowed l ≡ true → FirstRecovered l }
    ensures starts { (l : Bounds) → FirstStarts l }
    ensures room { (l : Bounds) → allowed l ≡ true → FirstHasRoom l }
{
    0
}
