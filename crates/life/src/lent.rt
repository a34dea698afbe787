// The memory that a life is lent, in one struct: the borrow check has no rule for one that is taken by value and holds another with lent slices.
ghost use Rattle.std.specs.Prelude.{◌≡◌};

use session::lent::Lent as Memory;

// For the session: cells of 8 and of 4 bytes, the journal's block, and the bytes of an answer. For the simulated device: places and blocks of writes that are not safe yet.
#[derive(Drop)]
pub struct Lent<'a> {
    pub cents: &'a mut [u64],
    pub numbers: &'a mut [u32],
    pub block: &'a mut [u8],
    pub bytes: &'a mut [u8],
    pub places: &'a mut [u64],
    pub blocks: &'a mut [u8],
}

impl<'a> Lent<'a> {
    // What a session is lent, and places and blocks beside it.
    pub fn of(memory: Memory<'a>, places: &'a mut [u64], blocks: &'a mut [u8]) -> Lent<'a>
        ensures cents { result.cents.now ≡ memory.entry.cents.now }
        ensures numbers { result.numbers.now ≡ memory.entry.numbers.now }
        ensures block { result.block.now ≡ memory.entry.block.now }
        ensures bytes { result.bytes.now ≡ memory.entry.bytes.now }
        ensures places { result.places.now ≡ places.old }
        ensures blocks { result.blocks.now ≡ blocks.old }
    {
        let Memory {
            cents,
            numbers,
            block,
            bytes,
        } = memory;
        Lent {
            cents,
            numbers,
            block,
            bytes,
            places,
            blocks,
        }
    }
}
