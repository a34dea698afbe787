// The end of the journal: how many calls it has, and the block that is written next.
// A block is handed on everywhere as a part of lent bytes, so it is a slice of 512 bytes and no array.
ghost use Rattle.std.specs.Prelude.{◌≡◌, ◌*◌, ◌/◌, ◌%◌, ◌<◌, true, List, [], ◌∷◌, ◌++◌, length, Some, None, ◌==◌, nat_lt};
ghost use Rattle.device.specs.Book.{every};
ghost use Rattle.device.specs.Device.{pick};
ghost use Rattle.bank.specs.Calls.{Call as Told};
ghost use Rattle.bank.specs.Promise.{allowed};
ghost use Rattle.model.specs.JournalBlock.{stored};
ghost use Rattle.columns.specs.Sizes.{limits_of};
ghost use Rattle.wire.specs.Meaning.{meant};
ghost use Rattle.journal.specs.Blocks.{block_with, tail_in, with_row, RowOf};

use crate::header::{Header, Label, ROWS, write_rows};
use wire::call::Call;
use wire::row::{ROW, read_row, write_row};

// Bytes of a header.
const HEADER: usize = 32;

// Puts a row behind the first n of a block; the first row begins the block anew.
fn put_row(block: &mut [u8], label: Label, n: u64, call: Call)
    requires whole { length block.old ≡ 512 }
    requires room { n < 24 }
    requires kept { stored (meant call) ≡ true }
    ensures { block.new ≡ with_row (pick (n == 0) (block_with label []) block.old) n (meant call) }
{
    if n == 0 {
        label.begin(block);
    }
    write_rows(block, n + 1);
    write_row(block, HEADER + ROW * n as usize, call);
}

// The journal of a book: the lent block that is written next; what each of its blocks says of the book; how many blocks there are, and how many of them recovery has read; and how many
// calls it has.
#[derive(Drop)]
pub struct Journal<'a> {
    block: &'a mut [u8],
    label: Label,
    blocks: u32,
    read: u32,
    count: u64,
    // the book's limits may be given
    pub ghost lawful: { allowed (limits_of label.limits) ≡ true },
    // a format is never 0
    pub ghost named: { 0 < label.format },
    // the block is whole
    pub ghost whole: { length block.now ≡ 512 },
    // once it has rows, it is the block of the last calls
    pub ghost bytes: { 0 < count % 24 → block.now ≡ block_with label (tail_in label count block.now) },
    // as many as are not in the blocks before
    pub ghost long: { length (tail_in label count block.now) ≡ count % 24 },
    // each of them can be stored
    pub ghost rows: { every stored (tail_in label count block.now) ≡ true },
}

impl<'a> Journal<'a> {
    ghost use Rattle.journal.specs.Tail.{Stands};

    // A journal that has so many blocks, of which none was read yet.
    #[tactic(auto, unfolding(crate::specs::Blocks::tail_in, device::specs::Book::every))]
    pub fn new(block: &'a mut [u8], label: Label, blocks: u32) -> Journal<'a>
        requires whole { length block.old ≡ 512 }
        requires named { 0 < label.format }
        requires lawful { allowed (limits_of label.limits) ≡ true }
        ensures stands { Stands result [] }
        ensures book { result.label ≡ label }
        ensures blocks { (result.blocks ≡ blocks) × (result.read ≡ 0) }
        ensures bytes { result.block.now ≡ block.old }
    {
        Journal {
            block,
            label,
            blocks,
            read: 0,
            count: 0,
        }
    }
}

impl Journal<'_> {
    ghost use Rattle.journal.specs.Tail.{Appended, Stands};
    ghost use Rattle.journal.specs.Recovery.{accepts_next, next_rows, Took};

    // Adds a call, and says which block is to be written.
    pub fn append(&mut self, call: Call) -> u64
        requires room { self.old.count < 24 * self.old.blocks }
        requires kept { stored (meant call) ≡ true }
        ensures appended { Appended self.old self.new (meant call) }
        ensures stands { (s : List Told) → Stands self.old s → Stands self.new (s ++ (meant call ∷ [])) }
        ensures block { (result ≡ self.old.count / 24) × (result < self.old.blocks) }
    {
        let n = self.count % ROWS;
        let k = self.count / ROWS;
        put_row(self.block, self.label, n, call);
        self.count += 1;
        k
    }

    // The bytes of the block that is written next.
    pub fn block(&self) -> &[u8]
        ensures { result.now ≡ self.now.block.now }
    {
        self.block
    }

    // The block that recovery reads next; none where it has read all.
    pub fn next_block(&self) -> Option<u64>
        ensures { result ≡ pick (nat_lt self.now.read self.now.blocks) (Some self.now.read) None }
    {
        (self.read < self.blocks).then_some(self.read as u64)
    }

    // How many rows the block that is read next has for this journal; none where it cannot be a block of it.
    #[tactic(auto, using(std::proofs::lemmas::Bool::Decides::nat_tests), unfolding(model::specs::JournalBlock::headed, model::specs::JournalBlock::own))]
    fn rows_in(&self, bytes: &[u8]) -> Option<usize>
        ensures { result ≡ pick (accepts_next self.now bytes.now) (Some (next_rows self.now bytes.now)) None }
    {
        let k = self.next_block()?;
        let header = Header::read(bytes)?;
        if header.format == 0 {
            return Some(0);
        }
        if !header.is_of(self.label) {
            return None;
        }
        header.rows_for(self.label.epoch, self.count == ROWS * k)
    }

    // Takes the block that was asked for, and says how many rows it has; none where it cannot be a block of this journal.
    pub fn take_block(&mut self, bytes: &[u8]) -> Option<usize>
        ensures took { Took self.old self.new bytes.now result }
        ensures stands { (s : List Told) → Stands self.old s → Stands self.new s }
    {
        let rows = self.rows_in(bytes)?;
        self.read += 1;
        Some(rows)
    }
}

// The call of row i of a block; none where there is no such kind of row.
pub fn row_at(block: &[u8], i: usize) -> Option<Call>
    requires whole { length block.now ≡ 512 }
    requires there { i < 24 }
    ensures { RowOf block.now i result }
{
    read_row(block, HEADER + ROW * i)
}
