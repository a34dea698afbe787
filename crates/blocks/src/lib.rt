// Blocks of 512 bytes in a row of lent bytes: a block is a part that starts in its middle.
#![tactic(auto)]

ghost use Rattle.std.specs.Prelude.{◌≡◌, ◌+◌, ◌*◌, ◌/◌, ◌≤◌, length};
ghost use Rattle.blocks.specs.Blocks.{block, put_block, device_of};

// Bytes in a block.
pub const BLOCK: usize = 512;

// How many whole blocks there are.
pub fn blocks_in(bytes: &[u8]) -> u64
    ensures { result ≡ length bytes.now / 512 }
{
    (bytes.len() / BLOCK) as u64
}

// Block k, which is there.
pub fn block_at(bytes: &[u8], k: usize) -> &[u8]
    requires { 512 * k + 512 ≤ length bytes.now }
    ensures bytes { result.now ≡ block k bytes.now }
    ensures whole { length result.now ≡ 512 }
    ensures device { result.now ≡ device_of bytes.now k }
{
    let at = BLOCK * k;
    &bytes[at..at + BLOCK]
}

// Fills block k through the part that it is; the other bytes stay.
pub fn set_block(bytes: &mut [u8], k: usize, from: &[u8])
    requires there { 512 * k + 512 ≤ length bytes.old }
    requires whole { length from.now ≡ 512 }
    ensures { bytes.new ≡ put_block k from.now bytes.old }
{
    let at = BLOCK * k;
    bytes[at..at + BLOCK].copy_from_slice(from);
}
