// Taking the calls of a journal again.
ghost use Rattle.std.specs.Prelude.{◌≡◌, ◌+◌, ◌*◌, ◌<◌, ◌≤◌, true, ◌&&◌, List, [], ◌∷◌, length, is_some, IfSome};
ghost use Rattle.device.specs.Rows.{rows_in};
ghost use Rattle.bank.specs.Calls.{Call as Told-call};
ghost use Rattle.bank.specs.Count.{changes};
ghost use Rattle.bank.specs.Promise.{plain};
ghost use Rattle.model.specs.JournalBlock.{call_row};
ghost use Rattle.wire.specs.Meaning.{meant};
ghost use Rattle.ledger.specs.Meaning.{bank, limits};
ghost use Rattle.session.specs.Session.{At};
ghost use Rattle.session.specs.Replay.{Grown, KnownRows, TakenAgain, row_call};

use crate::Session;
use desk::Outcome;
use journal::journal::row_at;
use wire::call::Call;

impl Session<'_> {
    // Takes a call of the journal again. None where it does not change the book, as it did before.
    fn replay(&mut self, call: Call) -> Option<()>
        requires room { self.old.journal.count < 24 * self.old.journal.blocks }
        ensures taken { is_some result ≡ (plain (meant call) && changes (limits self.old.book.ledger) (bank self.old.book.ledger) (meant call)) }
        ensures grown { IfSome result (λ _. Grown self.old self.new (meant call ∷ [])) }
    {
        let Outcome::Changed(_) = self.book.take(call) else {
            return None;
        };
        let _ = self.journal.append(call);
        Some(())
    }

    // Takes the call of row `i` of a block again.
    fn replay_row(&mut self, block: &[u8], i: usize) -> Option<()>
        requires whole { length block.now ≡ 512 }
        requires there { i < 24 }
        requires room { self.old.journal.count < 24 * self.old.journal.blocks }
        ensures found { KnownRows block.now (i + 1) → (plain (row_call block.now i) && changes (limits self.old.book.ledger) (bank self.old.book.ledger) (row_call block.now i)) ≡ true → is_some result ≡ true }
        ensures grown { IfSome result (λ _. Grown self.old self.new (row_call block.now i ∷ [])) }
    {
        self.replay(row_at(block, i)?)
    }

    // Takes the calls of the first `rows` rows of a block again, by number, as a row is read at its place.
    pub(crate) fn replay_block(&mut self, block: &[u8], rows: usize) -> Option<()>
        requires whole { length block.now ≡ 512 }
        requires few { rows ≤ 24 }
        requires room { 0 < rows → self.old.journal.count + rows ≤ 24 * self.old.journal.blocks }
        ensures found { (base : List Told-call) → At self.old base → KnownRows block.now rows → TakenAgain (limits self.old.book.ledger) base (rows_in call_row 32 rows block.now) → is_some result ≡ true }
        ensures grown { IfSome result (λ _. Grown self.old self.new (rows_in call_row 32 rows block.now)) }
    {
        for i in 0..rows {
            self.replay_row(block, i)?;
        }
        Some(())
    }
}
