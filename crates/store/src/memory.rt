// The memory that a book is lent, on the heap.
ghost use Rattle.std.specs.Prelude.{◌≡◌, ◌+◌, ◌*◌, max, length, IfOk};
ghost use Rattle.columns.specs.Sizes.{limits_of, cents_for, numbers_for};

use blocks::BLOCK;
use columns::limits::Limits;
use session::lent::Lent;
use std::alloc::{AllocError, Global};
use wire::answer::most_answer;

// Cells of 8 and of 4 bytes, a block, and the bytes of an answer.
#[derive(Drop)]
pub struct Memory {
    cents: Vec<u64>,
    numbers: Vec<u32>,
    block: Vec<u8>,
    bytes: Vec<u8>,
}

impl Memory {
    // As much as a book with these limits asks for.
    pub fn new(heap: Global, limits: Limits) -> Result<Memory, AllocError>
        ensures cents { IfOk result (λ m. length m.cents.items ≡ cents_for (limits_of limits)) }
        ensures numbers { IfOk result (λ m. length m.numbers.items ≡ numbers_for (limits_of limits)) }
        ensures block { IfOk result (λ m. length m.block.items ≡ 512) }
        ensures bytes { IfOk result (λ m. length m.bytes.items ≡ max 17 (9 + 56 * limits.bookings)) }
    {
        Ok(Memory {
            cents: vec![in heap; 0u64; limits.cents_needed()]?,
            numbers: vec![in heap; 0u32; limits.numbers_needed()]?,
            block: vec![in heap; 0u8; BLOCK]?,
            bytes: vec![in heap; 0u8; most_answer(limits.bookings)]?,
        })
    }

    // All of it, to be lent to a session.
    pub fn lend(&mut self) -> Lent<'_>
        ensures cents { result.cents.now ≡ self.old.cents.items }
        ensures numbers { result.numbers.now ≡ self.old.numbers.items }
        ensures block { result.block.now ≡ self.old.block.items }
        ensures bytes { result.bytes.now ≡ self.old.bytes.items }
    {
        Lent {
            cents: self.cents.as_mut_slice(),
            numbers: self.numbers.as_mut_slice(),
            block: self.block.as_mut_slice(),
            bytes: self.bytes.as_mut_slice(),
        }
    }
}

#[cfg(test)]
mod tests {
    use super::*;
    use std::test::Fail;

    #[test]
    fn as_much_as_is_asked_for(rt: HostRuntime) -> Result<(), Fail> {
        let limits = Limits {
            accounts: 4,
            rates: 2,
            bookings: 3,
        };
        let mut memory = Memory::new(rt.alloc(), limits)?;
        let lent = memory.lend();
        assert_eq!(rt; lent.cents.len(), 27);
        assert_eq!(rt; lent.numbers.len(), 42);
        assert_eq!(rt; lent.block.len(), 512);
        assert_eq!(rt; lent.bytes.len(), 177);
        Ok(())
    }
}
