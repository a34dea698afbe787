// The header of a journal block, its first 32 bytes; numbers low byte first. Then come 24 rows of 20 bytes.
//
// | at | bytes | what |
// |---|---|---|
// | 0 | 2 | format, never 0 |
// | 2 | 2 | rows in the block |
// | 4 | 2 | options, 0 |
// | 6 | 2 | limit of accounts |
// | 8 | 4 | epoch: the number of the checkpoint, 0 at first |
// | 12 | 4 | limit of bookings |
// | 16 | 2 | limit of rates |
// | 18 | 14 | zeros |
ghost use Rattle.std.specs.Prelude.{◌≡◌, ◌+◌, ◌≤◌, [], length, take, drop};
ghost use Rattle.device.specs.Rows.{bytes_of, with_bytes};
ghost use Rattle.model.specs.JournalBlock.{same_book};
ghost use Rattle.columns.specs.Sizes.{limits_of};
ghost use Rattle.journal.specs.Blocks.{block_with};
ghost use Rattle.journal.specs.Headers.{head_of, limits_said, rows_found, Reads};
ghost use Rattle.journal.specs.Recovery.{Says};

use blocks::BLOCK;
use columns::limits::Limits;
use wire::bytes::put_number;

// Where each number stands.
const FORMAT_AT: usize = 0;

const ROWS_AT: usize = 2;

const OPTIONS_AT: usize = 4;

const ACCOUNTS_AT: usize = 6;

const EPOCH_AT: usize = 8;

const BOOKINGS_AT: usize = 12;

const RATES_AT: usize = 16;

// Rows in a block.
pub(crate) const ROWS: u64 = 24;

// What each block of a journal says of its book: its format, the book's limits, and the number of the checkpoint.
#[derive(Clone, Copy)]
pub struct Label {
    pub format: u16,
    pub limits: Limits,
    pub epoch: u32,
}

// What a header says.
#[derive(Clone, Copy)]
pub(crate) struct Header {
    pub(crate) format: u16,
    pub(crate) rows: u16,
    pub(crate) options: u16,
    pub(crate) accounts: u16,
    pub(crate) epoch: u32,
    pub(crate) bookings: u32,
    pub(crate) rates: u16,
}

// The N bytes from `at` on.
fn bytes_at<const N: usize>(block: &[u8], at: usize) -> [u8; N]
    requires { at + N ≤ length block.now }
    ensures { result ≡ take N (drop at block.now) }
{
    let mut bytes = [0; N];
    bytes.copy_from_slice(&block[at..at + N]);
    bytes
}

impl Header {
    // Reads the header of a block; none where the bytes are no whole block.
    pub(crate) fn read(block: &[u8]) -> Option<Header>
        ensures { Reads block.now result }
    {
        if block.len() != BLOCK {
            return None;
        }
        Some(Header {
            format: u16::from_le_bytes(bytes_at(block, FORMAT_AT)),
            rows: u16::from_le_bytes(bytes_at(block, ROWS_AT)),
            options: u16::from_le_bytes(bytes_at(block, OPTIONS_AT)),
            accounts: u16::from_le_bytes(bytes_at(block, ACCOUNTS_AT)),
            epoch: u32::from_le_bytes(bytes_at(block, EPOCH_AT)),
            bookings: u32::from_le_bytes(bytes_at(block, BOOKINGS_AT)),
            rates: u16::from_le_bytes(bytes_at(block, RATES_AT)),
        })
    }

    // The limits of the book that its block is of.
    fn limits(self) -> Limits
        ensures { limits_of result ≡ limits_said (head_of self) }
    {
        Limits {
            accounts: self.accounts as u32,
            rates: self.rates as u32,
            bookings: self.bookings,
        }
    }

    // Is its block of the format and the book of this label?
    pub(crate) fn is_of(self, label: Label) -> bool
        ensures { result ≡ same_book label.format (limits_of label.limits) (head_of self) }
    {
        self.format == label.format && self.limits() == label.limits
    }

    // How many rows its block has for a journal of this epoch, which a block can join or not; one of an earlier epoch counts as empty. None where it cannot be of the journal: it
    // has rows of a later epoch, too many, or some behind a block that is not full.
    pub(crate) fn rows_for(self, epoch: u32, joins: bool) -> Option<usize>
        ensures { result ≡ rows_found (head_of self) epoch joins }
    {
        if self.rows == 0 || self.epoch < epoch {
            return Some(0);
        }
        let fits = self.epoch <= epoch && self.rows as u64 <= ROWS && joins;
        fits.then_some(self.rows as usize)
    }
}

// The limits of the book that a block of this format is of.
pub fn limits_in(block: &[u8], format: u16) -> Option<Limits>
    ensures { Says block.now format result }
{
    let header = Header::read(block)?;
    (header.format == format).then_some(header.limits())
}

impl Label {
    // Begins a block of a journal: its header, with no rows yet, and zeros.
    pub(crate) fn begin(self, block: &mut [u8])
        requires { length block.old ≡ 512 }
        ensures { block.new ≡ block_with self [] }
    {
        block.fill(0);
        put_number(block, FORMAT_AT, 2, self.format as u64);
        put_number(block, ACCOUNTS_AT, 2, self.limits.accounts as u64);
        put_number(block, EPOCH_AT, 4, self.epoch as u64);
        put_number(block, BOOKINGS_AT, 4, self.limits.bookings as u64);
        put_number(block, RATES_AT, 2, self.limits.rates as u64);
    }
}

// Puts the number of rows into the header.
pub(crate) fn write_rows(block: &mut [u8], rows: u64)
    requires { 32 ≤ length block.old }
    ensures { block.new ≡ with_bytes block.old 2 (bytes_of 2 rows) }
{
    put_number(block, ROWS_AT, 2, rows);
}
