// A taken call as a row of the journal, 20 bytes: its kind in two bytes, one more than the byte that the call begins with, so that zeros are no row; then its
// numbers by the widths of its kind, low byte first; and zeros.
//
// | kind | call | numbers, with their bytes |
// |---|---|---|
// | 0 | none | |
// | 1 | open | limit 8, rate 2 |
// | 2 | rate | account 2, rate 2 |
// | 3 | move | value day 2, from 2, to 2, amount 8 |
// | 4 | take back | booking 4 |
// | 5 | day ends | |
ghost use Rattle.std.specs.Prelude.{◌≡◌, ◌+◌, ◌≤◌, true, length};
ghost use Rattle.device.specs.Rows.{row_of, width, with_bytes};
ghost use Rattle.model.specs.JournalBlock.{call_row, call_widths, stored};
ghost use Rattle.wire.specs.Bytes.{narrow};
ghost use Rattle.wire.specs.JournalRow.{Apart, Empty, HasRow, Remembers, RowAt};
ghost use Rattle.wire.specs.Meaning.{meant};

use crate::bytes::{number_at, numbers_at, put_number, put_numbers};
use crate::call::Call;

// How many bytes a row has, and its kind.
pub const ROW: usize = 20;

const KIND: usize = 2;

// How wide the numbers of a kind are. The kind is a number of the format; its enum is `Call`.
#[tactic(auto, unfolding(model::specs::JournalBlock::call_widths))]
fn widths(kind: u64) -> &'static [usize]
    requires { kind ≤ 5 }
    ensures is { result.now ≡ call_widths kind }
    ensures few { (length result.now ≤ 4) × ((narrow result.now ≡ true) × (width result.now ≤ 18)) }
{
    match kind {
        1 => &[8, 2],
        2 => &[2, 2],
        3 => &[2, 2, 2, 8],
        4 => &[4],
        _ => &[],
    }
}

// Writes the row of a taken call into the 20 bytes from `at` on.
pub fn write_row(block: &mut [u8], at: usize, call: Call)
    requires room { at + 20 ≤ length block.old }
    requires kept { stored (meant call) ≡ true }
    ensures { block.new ≡ with_bytes block.old at (row_of call_row (meant call)) }
{
    let kind = call.number() as u64 + 1;
    put_number(block, at, KIND, kind);
    let end = put_numbers(block, at + KIND, widths(kind), &call.fields());
    block[end..at + ROW].fill(0);
}

// The call whose row stands in the 20 bytes from `at` on; none where the kind is none, as in zeros.
pub fn read_row(block: &[u8], at: usize) -> Option<Call>
    requires { at + 20 ≤ length block.now }
    ensures { RowAt block.now at result }
{
    let kind = number_at(block, at, KIND);
    if kind == 0 || kind > 5 {
        return None;
    }
    let numbers = numbers_at(block, at + KIND, widths(kind));
    Some(Call::from_fields((kind - 1) as u8, &numbers))
}

// Theorems of rows: what was written is read there, other places stay as they were, zeros hold none, and what a book takes has one.
pub fn rows_stand() -> u8
    ensures back { Remembers }
    ensures apart { Apart }
    ensures empty { Empty }
    ensures taken { HasRow }
{
    0
}
