// The memory that a session is lent.

// Cells of 8 and of 4 bytes for the book, a block for the journal, and the bytes of answers.
#[derive(Drop)]
pub struct Lent<'a> {
    pub cents: &'a mut [u64],
    pub numbers: &'a mut [u32],
    pub block: &'a mut [u8],
    pub bytes: &'a mut [u8],
}
