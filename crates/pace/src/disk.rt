// A device that takes every act at once, and keeps only the block that was written last.
use blocks::BLOCK;

// The acts are counted, and the bytes of all answers are added to a checksum.
#[derive(Drop)]
pub struct Device {
    block: [u8; BLOCK],
    pub writes: u64,
    pub flushes: u64,
    pub answers: u64,
    pub refusals: u64,
    pub checksum: u64,
}

// The checksum of no bytes.
const NOTHING: u64 = 0xCBF2_9CE4_8422_2325;

// A checksum with one byte more.
fn mixed(checksum: u64, byte: u8) -> u64 {
    (checksum ^ byte as u64).wrapping_mul(0x0000_0100_0000_01B3)
}

// A checksum with some bytes more.
fn mixed_all(checksum: u64, bytes: &[u8]) -> u64 {
    bytes.iter().fold(checksum, |sum, byte| mixed(sum, *byte))
}

impl Device {
    // A device on which nothing was done yet.
    pub fn new() -> Device {
        Device {
            block: [0; BLOCK],
            writes: 0,
            flushes: 0,
            answers: 0,
            refusals: 0,
            checksum: NOTHING,
        }
    }

    // Takes the bytes of a block.
    pub fn write(&mut self, bytes: &[u8]) {
        if bytes.len() == BLOCK {
            self.block.copy_from_slice(bytes);
        }
        self.writes = self.writes.wrapping_add(1);
    }

    // The checksum of the block that was written last.
    pub fn block_checksum(&self) -> u64 {
        mixed_all(NOTHING, &self.block)
    }

    // Nothing waits, so there is nothing to make safe.
    pub fn flush(&mut self) {
        self.flushes = self.flushes.wrapping_add(1);
    }

    // Takes an answer, the first `count` of some bytes. One that begins with 0 is a refusal.
    pub fn say(&mut self, bytes: &[u8], count: usize) {
        let answer = &bytes[..count.min(bytes.len())];
        if answer.first() == Some(&0) {
            self.refusals = self.refusals.wrapping_add(1);
        }
        self.answers = self.answers.wrapping_add(1);
        self.checksum = mixed_all(self.checksum, answer);
    }
}
