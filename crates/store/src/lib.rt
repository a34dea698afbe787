// A device in a file, the book that the programs keep on it, and what they read and print.
#![tactic(auto)]

ghost use Rattle.std.specs.Prelude.{◌≡◌, ◌≤◌, ℕ, List, IfSome, IsSome, Some};
ghost use Rattle.bank.specs.Calls.{Call};
ghost use Rattle.columns.specs.Sizes.{limits_of};
ghost use Rattle.model.specs.Whole.{ReachedRegister};
ghost use Rattle.ledger.specs.Meaning.{limits, register};
ghost use Rattle.session.specs.Opening.{NewOpening, Opens, HoldsCalls, Recovered};
ghost use Rattle.store.specs.Reading.{ReadsBlocks, NeverFails};
ghost use Rattle.store.specs.Opened.{OpenedBook};

use columns::limits::Limits;
use ledger::opening::Misfit;
use memory::Memory;
use session::Session;
use session::opening::{Opening, blocks_needed, open};
use std::fs::{File, OpenOptions};
use std::io;
use std::io::{Read, Seek, SeekFrom, Write};

pub mod lines;
pub mod memory;

// What a book is opened with.
pub const LIMITS: Limits = Limits {
    accounts: 64,
    rates: 256,
    bookings: 512,
};

pub use blocks::BLOCK;

// A file of blocks that is open.
#[derive(Drop)]
pub struct Store {
    file: File,
}

impl Store {
    // Opens a file of blocks to be read and written; makes it, all zeros, where it is missing or empty.
    pub fn open(rt: &HostRuntime, path: &str, blocks: u64) -> io::Result<Store> {
        let file = OpenOptions::new()
            .read(true)
            .write(true)
            .create(true)
            .open(rt, path)?;
        if file.metadata()?.len() == 0 {
            file.set_len(blocks.saturating_mul(BLOCK as u64))?;
            file.sync_all()?;
        }
        Ok(Store { file })
    }

    // Opens a file of blocks to be read.
    pub fn look(rt: &HostRuntime, path: &str) -> io::Result<Store> {
        let file = File::open(rt, path)?;
        Ok(Store { file })
    }

    // Goes to where block k begins.
    fn find(&mut self, k: u64) -> io::Result<()> {
        let _ = self
            .file
            .seek(SeekFrom::Start(k.saturating_mul(BLOCK as u64)))?;
        Ok(())
    }

    // Reads block k.
    pub fn read(&mut self, k: u64, block: &mut [u8]) -> io::Result<()> {
        self.find(k)?;
        self.file.read_exact(block)
    }

    // Writes block k, and has the disk keep it.
    pub fn write(&mut self, k: u64, block: &[u8]) -> io::Result<()> {
        self.find(k)?;
        self.file.write_all(block)?;
        self.file.sync_data()
    }
}

// The session of an opening, whose blocks are read one after another. None where one cannot be read, or cannot be of this book.
pub fn stand<'a, F: FnMut(u64, &mut [u8]) -> Option<()>>(
    opening: Opening<'a>,
    mut read: F,
) -> Option<Session<'a>>
    requires { F.IsAlwaysCallable read }
    ensures limits { IfSome result (λ s. limits s.book.ledger ≡ limits opening.entry.session.book.ledger) }
    ensures all { IfSome result (λ s. s.journal.blocks ≤ s.journal.read) }
    ensures reached { Opens opening.entry → IfSome result (λ s. ReachedRegister (limits s.book.ledger) (register s.book.ledger)) }
    ensures recovered { (image : List ℕ) → ReadsBlocks F.FnMut read image → NewOpening opening.entry (limits opening.entry.session.book.ledger) → IfSome result (λ s. Recovered opening.entry image (Some s)) }
    ensures found { (image : List ℕ) (ts : List Call) → ReadsBlocks F.FnMut read image → NeverFails F.FnMut read → HoldsCalls opening.entry image ts → IsSome result }
{
    let mut opening = opening;
    let mut block = [0; BLOCK];
    while let Some(k) = opening.next_block() {
        read(k, &mut block)?;
        if !opening.take_block(&block) {
            return None;
        }
    }
    opening.stand()
}

// Reads all blocks that an opening asks for; says whether none was refused. The opening stays its lender's, who can ask which block is next.
pub fn read_all(store: &mut Store, opening: &mut Opening) -> anyhow::Result<bool>
    requires { Opens opening.old }
    ensures { Opens opening.new }
{
    let mut block = [0; BLOCK];
    for _ in 0..blocks_needed(LIMITS) {
        let Some(k) = opening.next_block() else {
            return Ok(true);
        };
        if store.read(k, &mut block).is_err() {
            return Ok(false);
        }
        if !opening.take_block(&block) {
            return Ok(false);
        }
    }
    Ok(true)
}

// Opens the book that a file of blocks holds. A match and no `map_err`: the borrow check has no rule for a closure that takes what was refused, with its lent memory.
pub fn open_book<'a>(store: &mut Store, memory: &'a mut Memory) -> Result<Session<'a>, Misfit>
    ensures { OpenedBook (limits_of LIMITS) memory.old result }
{
    let opening = match open(LIMITS, memory.lend()) {
        Ok(opening) => opening,
        Err(refused) => return Err(refused.misfit),
    };
    stand(opening, |k, block| store.read(k, block).ok()).ok_or(Misfit::Device)
}
