// The session: one call from bytes to acts, which are handed out one at a time. It does no input or output of its own.
//
// | stage | the next act | then |
// |---|---|---|
// | writing | write the lent block to the device | flushing |
// | flushing | flush | saying |
// | saying | say the answer that stands in the lent bytes | idle |
// | idle | none | idle |
//
// A call that changes the book begins at writing, any other at saying.
#![tactic(auto)]

ghost use Rattle.std.specs.Prelude.{◌≡◌, ◌≤◌, [], ◌++◌, length, take};
ghost use Rattle.wire.specs.Answered.{Follows, answered, written_answer};
ghost use Rattle.session.specs.Joined.{Joined};
ghost use Rattle.model.specs.First.{first_program};
ghost use Rattle.wire.specs.Format.{read_call_lem};
ghost use Rattle.ledger.specs.Meaning.{limits};

use desk::{Book, Outcome};
use journal::journal::Journal;
use ledger::Ledger;
use reply::write_plain;
use wire::answer::Answer;
use wire::call::read_call;

pub mod lent;
pub mod opening;
mod replay;
mod reply;

// What is left to do for the call that was taken last.
#[derive(Clone, Copy)]
pub enum Stage {
    Idle,
    // the lent block is to be written to a block of the device
    Writing(u64),
    Flushing,
    Saying,
}

// What the caller is to do next: write the lent block to a block of the device, flush, say so many of the lent answer's bytes, or nothing.
#[derive(Clone, Copy)]
pub enum Next {
    Write(u64),
    Flush,
    Say(usize),
    Done,
}

// A book that is open: all its memory is lent.
#[derive(Drop)]
pub struct Session<'a> {
    book: Book<'a>,
    journal: Journal<'a>,
    // the bytes of the last answer, and how many they are
    bytes: &'a mut [u8],
    said: usize,
    answer: Answer,
    stage: Stage,
    // the journal is that of the book
    pub ghost joined: { Joined book.ledger journal },
    // the answer stands in the lent bytes
    pub ghost roomy: { 17 ≤ length bytes.now },
    pub ghost spoken: { take said bytes.now ≡ written_answer (answered answer []) },
}

impl<'a> Session<'a> {
    ghost use Rattle.desk.specs.Desk.{Onward};
    ghost use Rattle.session.specs.Session.{memory, left, told, Told, Replied, Said, Same};

    // Puts an answer, which no bookings follow, into the lent bytes, to be said.
    fn reply(&mut self, answer: Answer)
        requires { Follows answer [] }
        ensures { Replied self.old self.new answer }
    {
        let length = write_plain(self.bytes, answer);
        self.answer = answer;
        self.said = length;
        self.stage = Stage::Saying;
    }

    // Takes the call that a row of bytes is, or turns it away; `next_act` then hands out what is to be done.
    pub fn call(&mut self, row: &[u8])
        ensures state { memory self.new ≡ (first_program (limits self.old.book.ledger)).next (memory self.old) (read_call_lem row.now) }
        ensures acts { left self.new ≡ (first_program (limits self.old.book.ledger)).does (memory self.old) (read_call_lem row.now) }
        ensures limits { limits self.new.book.ledger ≡ limits self.old.book.ledger }
        ensures reached { Onward self.old.book.ledger self.new.book.ledger }
    {
        let call = match read_call(row) {
            Ok(call) => call,
            Err(place) => {
                self.reply(Answer::Refused {
                    reason: 1,
                    place: place as u64,
                });
                return;
            }
        };
        match self.book.take(call) {
            Outcome::Changed(answer) => {
                self.reply(answer);
                self.stage = Stage::Writing(self.journal.append(call));
            }
            Outcome::Unchanged(answer) => self.reply(answer),
        }
    }

    // The next act, or that there is none.
    pub fn next_act(&mut self) -> Next
        ensures act { left self.old ≡ told result self.old ++ left self.new }
        ensures done { Told result (left self.old) }
        ensures said { Said result self.old }
        ensures same { Same self.old self.new }
    {
        match self.stage {
            Stage::Idle => Next::Done,
            Stage::Writing(k) => {
                self.stage = Stage::Flushing;
                Next::Write(k)
            }
            Stage::Flushing => {
                self.stage = Stage::Saying;
                Next::Flush
            }
            Stage::Saying => {
                self.stage = Stage::Idle;
                Next::Say(self.said)
            }
        }
    }

    // The book, to be looked at.
    pub fn book(&self) -> &Ledger<'a>
        ensures { result.now ≡ self.now.book.ledger }
    {
        self.book.ledger()
    }

    // The book as calls are taken on it, to be asked.
    pub fn desk(&self) -> &Book<'a>
        ensures { result.now ≡ self.now.book }
    {
        &self.book
    }

    // The bytes that a write is of.
    pub fn block(&self) -> &[u8]
        ensures { result.now ≡ self.now.journal.block.now }
    {
        self.journal.block()
    }

    // The bytes of the answer, and whatever lies behind them.
    pub fn answer_bytes(&self) -> &[u8]
        ensures { result.now ≡ self.now.bytes.now }
    {
        self.bytes
    }
}
