// Opening a session in lent memory: it asks for the blocks of the device one after another, and takes the calls of its journal again.
ghost use Rattle.std.specs.Prelude.{◌≡◌, ◌≤◌, true, not, List, length, Some, None, nat_lt};
ghost use Rattle.device.specs.Device.{pick};
ghost use Rattle.bank.specs.Calls.{Call as Told-call};
ghost use Rattle.bank.specs.Promise.{allowed, room};
ghost use Rattle.ledger.specs.Opened.{New};
ghost use Rattle.columns.specs.Sizes.{limits_of};
ghost use Rattle.session.specs.Opening.{NewOpening, outer_misfit, Opened, Opens, Advanced, Acceptable, Through, HoldsCalls, TookBlock, TookImage, Stood, Recovered};
ghost use Rattle.ledger.specs.Meaning.{limits};

use crate::lent::Lent;
use crate::reply::write_plain;
use crate::{Session, Stage};
use blocks::{BLOCK, block_at, blocks_in};
use columns::limits::Limits;
use desk::Book;
use journal::header::Label;
use journal::journal::Journal;
use ledger::opening::{Misfit, Refused as Unopened};
use wire::answer::{Answer, most_answer};

// The format of the first stage's journal blocks, and the number of its only checkpoint.
const FORMAT: u16 = 1;

const EPOCH: u32 = 0;

// An opening that was refused: what does not fit, and the lent memory as it was.
#[derive(Drop)]
pub struct Refused<'a> {
    pub misfit: Misfit,
    pub lent: Lent<'a>,
}

// A session that does not stand yet: blocks of its device are still to be read, or one was refused.
#[derive(Drop)]
pub struct Opening<'a> {
    session: Session<'a>,
    refused: bool,
}

// How many blocks a device must have for these limits.
pub fn blocks_needed(limits: Limits) -> u64
    ensures { result ≡ room (limits_of limits) }
{
    (limits.accounts as u64 + limits.rates as u64 + limits.bookings as u64) / 4 + 64
}

// A new session, of which no block was read yet.
fn begin<'a>(
    book: Book<'a>,
    limits: Limits,
    block: &'a mut [u8],
    bytes: &'a mut [u8],
) -> Opening<'a>
    requires new { New book.ledger (limits_of limits) }
    requires lawful { allowed (limits_of limits) ≡ true }
    requires block { length block.old ≡ 512 }
    requires bytes { 17 ≤ length bytes.old }
    ensures { NewOpening result (limits_of limits) }
{
    let blocks = blocks_needed(limits) as u32;
    let answer = Answer::Number(0);
    let said = write_plain(bytes, answer);
    let label = Label {
        format: FORMAT,
        limits,
        epoch: EPOCH,
    };
    let journal = Journal::new(block, label, blocks);
    let session = Session {
        book,
        journal,
        bytes,
        said,
        answer,
        stage: Stage::Idle,
    };
    Opening {
        session,
        refused: false,
    }
}

// What does not fit, before the book's own cells are looked at. No `Result`: what refuses by it hands the lent memory back too.
fn what_misfits(limits: Limits, lent: &Lent) -> Option<Misfit>
    ensures { result ≡ outer_misfit (limits_of limits) (length lent.now.block.now) (length lent.now.bytes.now) }
{
    if !limits.are_allowed() {
        return Some(Misfit::Bounds);
    }
    if lent.block.len() != BLOCK || lent.bytes.len() < most_answer(limits.bookings) {
        return Some(Misfit::Memory);
    }
    None
}

// Begins to open the book of a device in lent memory.
pub fn open<'a>(limits: Limits, lent: Lent<'a>) -> Result<Opening<'a>, Refused<'a>>
    ensures { Opened (limits_of limits) lent.entry result }
{
    if let Some(misfit) = what_misfits(limits, &lent) {
        return Err(Refused { misfit, lent });
    }
    let Lent {
        cents,
        numbers,
        block,
        bytes,
    } = lent;
    match Book::open(limits, cents, numbers) {
        Ok(book) => Ok(begin(book, limits, block, bytes)),
        Err(
            Unopened {
                misfit,
                cents,
                numbers,
            },
        ) => {
            let lent = Lent {
                cents,
                numbers,
                block,
                bytes,
            };
            Err(Refused { misfit, lent })
        }
    }
}

impl<'a> Opening<'a> {
    // The block of the device that is to be read next; none where all were read.
    pub fn next_block(&self) -> Option<u64>
        ensures { result ≡ pick (nat_lt self.now.session.journal.read self.now.session.journal.blocks) (Some self.now.session.journal.read) None }
    {
        self.session.journal.next_block()
    }

    // Takes the block that was asked for: its calls are taken again. Refuses one that cannot be of this book, and from then on all others.
    pub fn take_block(&mut self, bytes: &[u8]) -> bool
        ensures opens { Opens self.old → Opens self.new }
        ensures advanced { result ≡ true → Advanced self.old self.new bytes.now }
        ensures found { (base : List Told-call) → Acceptable self.old base bytes.now → result ≡ true }
        ensures refused { self.new.refused ≡ not result }
    {
        if self.refused {
            return false;
        }
        let session = &mut self.session;
        let Some(rows) = session.journal.take_block(bytes) else {
            self.refused = true;
            return false;
        };
        let refused = session.replay_block(bytes, rows).is_none();
        self.refused = refused;
        !refused
    }

    // Takes all blocks of a device in lent bytes; says whether none is missing, and none was refused.
    pub fn take_image(&mut self, image: &[u8]) -> bool
        ensures opens { Opens self.old → Opens self.new }
        ensures through { result ≡ true → Through self.old self.new image.now }
        ensures all { result ≡ true → self.new.session.journal.blocks ≤ self.new.session.journal.read }
        ensures found { (ts : List Told-call) → HoldsCalls self.old image.now ts → result ≡ true }
    {
        while let Some(k) = self.next_block() {
            if k >= blocks_in(image) {
                return false;
            }
            if !self.take_block(block_at(image, k as usize)) {
                return false;
            }
        }
        true
    }

    // The opening with the block that was asked for. None where it is refused.
    pub fn with_block(self, bytes: &[u8]) -> Option<Opening<'a>>
        ensures { TookBlock self.entry bytes.now result }
    {
        let mut opening = self;
        opening.take_block(bytes).then_some(opening)
    }

    // The opening with all blocks of a device in lent bytes. None where one is missing or refused.
    pub fn with_image(self, image: &[u8]) -> Option<Opening<'a>>
        ensures { TookImage self.entry image.now result }
    {
        let mut opening = self;
        opening.take_image(image).then_some(opening)
    }

    // The session, where all blocks were read and none was refused.
    pub fn stand(self) -> Option<Session<'a>>
        ensures { Stood self.entry result }
    {
        let Opening { session, refused } = self;
        if refused || session.journal.next_block().is_some() {
            return None;
        }
        Some(session)
    }
}

// The session of a device in lent bytes, where it holds a book with these limits, or none yet.
pub fn recover<'a>(opening: Opening<'a>, image: &[u8]) -> Option<Session<'a>>
    requires { NewOpening opening (limits opening.session.book.ledger) }
    ensures { Recovered opening.entry image.now result }
{
    let mut opening = opening;
    if !opening.take_image(image) {
        return None;
    }
    opening.stand()
}
