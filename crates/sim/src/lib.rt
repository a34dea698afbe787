// A device in lent bytes that can lose power: its image, and apart from it the writes since the last flush.
#![tactic(auto)]

ghost use Rattle.std.specs.Prelude.{◌≡◌, ℕ, ◌+◌, ◌*◌, ◌/◌, ◌<◌, ◌≤◌, ◌==◌, min, List, length, take, slice_index};
ghost use Rattle.std.specs.List.{position_or_len};
ghost use Rattle.device.specs.Device.{Device, pick, write as written, flush as flushed};
ghost use Rattle.device.specs.Plan.{put_all};
ghost use Rattle.bank.specs.Device.{Act, LeftBy};
ghost use Rattle.bank.specs.Calls.{Answer};
ghost use Rattle.blocks.specs.Blocks.{device_of};
ghost use Rattle.sim.specs.Held.{at_rest, done, dones};
ghost use Rattle.sim.specs.Cut.{times, different, turn, left_of, cut_by, writes_in};
ghost use Rattle.sim.specs.Kept.{kept_in, held_by, room_for, is_taken, GoInto};

use blocks::{BLOCK, blocks_in, set_block};

// The writes that are not safe yet, oldest first, in lent memory: where each goes, and its bytes. The image comes with each call.
#[derive(Drop)]
pub struct Unflushed<'a> {
    places: &'a mut [u64],
    blocks: &'a mut [u8],
    count: usize,
    pub ghost numbered: { count ≤ length places.now },
    pub ghost whole: { 512 * count ≤ length blocks.now },
}

// The device: its image, which is safe, and the writes since the last flush, oldest first: where each goes, and its bytes.
#[derive(Drop)]
pub struct Disk<'i, 'a> {
    // It has a lifetime of its own: so its lender learns what it holds at the end.
    image: &'i mut [u8],
    places: &'a mut [u64],
    blocks: &'a mut [u8],
    count: usize,
    pub ghost numbered: { count ≤ length places.now },
    pub ghost whole: { 512 * count ≤ length blocks.now },
    pub ghost inside: { (i : ℕ) → i < count → 512 * slice_index places.now i + 512 ≤ length image.now },
}

// How often block k stands in a list of blocks.
fn times_written(places: &[u64], k: u64) -> usize
    ensures { result ≡ times k places.now }
{
    places.iter().filter(|place| **place == k).count()
}

// How many different blocks stand in a list of blocks: each is counted where it stands last. A loop, since what is asked of one is asked of those behind it.
fn different_blocks(places: &[u64]) -> usize
    ensures { result ≡ different places.now }
{
    let mut seen = 0;
    for (i, place) in places.iter().enumerate() {
        if times_written(&places[i + 1..], *place) == 0 {
            seen += 1;
        }
    }
    seen
}

// Where block k stands first in a list of blocks, or its end where it does not stand there.
fn first_written(places: &[u64], k: u64) -> usize
    ensures { result ≡ position_or_len (λ j. j == k) places.now }
{
    places.iter().take_while(|place| **place != k).count()
}

// How many other blocks were written before block k was.
fn turn_of(places: &[u64], k: u64) -> usize
    ensures { result ≡ turn k places.now }
{
    different_blocks(&places[..first_written(places, k)])
}

// Is the i-th write left where the row says how many there are of each block?
fn is_left(places: &[u64], row: &[u64], i: usize) -> bool
    requires { i < length places.now }
    ensures { result ≡ left_of row.now places.now i }
{
    let k = places[i];
    let earlier = times_written(&places[..i], k) as u64;
    let number = row.get(turn_of(places, k)).copied().unwrap_or(0);
    earlier < number
}

// Keeps a write behind the first few, or not: it is refused where it is no whole block, where block k is not before the end, or where there is no room.
fn keep_write(
    places: &mut [u64],
    blocks: &mut [u8],
    at: usize,
    end: u64,
    k: u64,
    block: &[u8],
) -> bool
    ensures taken { result ≡ is_taken end (room_for places.old blocks.old) at k block.now }
    ensures held { (image : List ℕ) → held_by image (kept_in (at + pick result 1 0) places.new blocks.new) ≡ pick result (done {A = Answer} (held_by image (kept_in at places.old blocks.old)) (written k block.now)) (held_by image (kept_in at places.old blocks.old)) }
    ensures inside { (image : List ℕ) → end ≡ length image / 512 → GoInto image places.old at → GoInto image places.new (at + pick result 1 0) }
{
    if at >= places.len() || at >= blocks.len() / BLOCK {
        return false;
    }
    if k >= end || block.len() != BLOCK {
        return false;
    }
    set_block(blocks, at, block);
    places[at] = k;
    true
}

// Puts writes into an image, the oldest first.
fn put_writes(image: &mut [u8], places: &[u64], blocks: &[u8])
    requires whole { 512 * length places.now ≤ length blocks.now }
    requires inside { GoInto image.old places.now (length places.now) }
    ensures { device_of image.new ≡ put_all (device_of image.old) (writes_in places.now blocks.now) }
{
    for (place, block) in places.iter().zip(blocks.chunks_exact(BLOCK)) {
        set_block(image, *place as usize, block);
    }
}

// Puts those writes into an image that a row leaves.
fn put_left(image: &mut [u8], places: &[u64], blocks: &[u8], row: &[u64])
    requires whole { 512 * length places.now ≤ length blocks.now }
    requires inside { GoInto image.old places.now (length places.now) }
    ensures { (k : ℕ) → device_of image.new k ≡ cut_by row.now (held_by image.old (writes_in places.now blocks.now)) k }
{
    let writes = places.iter().zip(blocks.chunks_exact(BLOCK));
    for (i, (place, block)) in writes.enumerate() {
        if is_left(places, row, i) {
            set_block(image, *place as usize, block);
        }
    }
}

impl<'a> Unflushed<'a> {
    ghost use Rattle.sim.specs.Unflushed.{holds, room, takes, Sound};

    // No writes. There is room for as many as there are places and whole blocks.
    pub fn new(places: &'a mut [u64], blocks: &'a mut [u8]) -> Unflushed<'a>
        ensures sound { (image : List ℕ) → Sound image result }
        ensures held { (image : List ℕ) → holds image result ≡ at_rest (device_of image) }
        ensures room { room result ≡ min (length places.old) (length blocks.old / 512) }
        ensures count { result.count ≡ 0 }
    {
        Unflushed {
            places,
            blocks,
            count: 0,
        }
    }

    // Keeps a write. It is refused where it is no whole block, where there is no such block, or where there is no room.
    pub fn write(&mut self, image: &[u8], k: u64, block: &[u8]) -> bool
        requires { Sound image.now self.old }
        ensures taken { result ≡ takes image.now self.old k block.now }
        ensures held { holds image.now self.new ≡ pick result (done {A = Answer} (holds image.now self.old) (written k block.now)) (holds image.now self.old) }
        ensures sound { Sound image.now self.new }
        ensures room { room self.new ≡ room self.old }
        ensures count { self.new.count ≡ self.old.count + pick result 1 0 }
    {
        let end = blocks_in(image);
        if !keep_write(self.places, self.blocks, self.count, end, k, block) {
            return false;
        }
        self.count += 1;
        true
    }

    // Makes all writes safe.
    #[tactic(auto, unfolding(crate::specs::Held::done))]
    pub fn flush(&mut self, image: &mut [u8])
        requires { Sound image.old self.old }
        ensures held { holds image.new self.new ≡ done {A = Answer} (holds image.old self.old) flushed }
        ensures sound { Sound image.new self.new }
        ensures room { room self.new ≡ room self.old }
        ensures count { self.new.count ≡ 0 }
    {
        put_writes(image, &self.places[..self.count], self.blocks);
        self.count = 0;
    }

    // Power is lost. The row has a number for each block that was written since the last flush, in the order of their first write: 0 leaves it as it was, n as the
    // n-th write to it made it, or the last where there are fewer. A number that lacks counts as 0.
    pub fn cut(&mut self, image: &mut [u8], row: &[u64])
        requires { Sound image.old self.old }
        ensures row { (k : ℕ) → device_of image.new k ≡ cut_by row.now (holds image.old self.old) k }
        ensures left { (d : Device) (xs : List Act) → holds image.old self.old ≡ dones (at_rest d) xs → LeftBy d xs (device_of image.new) }
        ensures held { holds image.new self.new ≡ at_rest (device_of image.new) }
        ensures sound { Sound image.new self.new }
        ensures room { room self.new ≡ room self.old }
        ensures count { self.new.count ≡ 0 }
    {
        put_left(image, &self.places[..self.count], self.blocks, row);
        self.count = 0;
    }
}

impl<'i, 'a> Disk<'i, 'a> {
    ghost use Rattle.sim.specs.Sims.{holds, room, takes, SameImage};

    // A device of which everything is safe. There is room for as many writes as there are places and whole blocks.
    pub fn new(image: &'i mut [u8], places: &'a mut [u64], blocks: &'a mut [u8]) -> Disk<'i, 'a>
        ensures same_image { result.image.ghost_name ≡ image.entry.ghost_name }
        ensures image { result.image.now ≡ image.old }
        ensures held { holds result ≡ at_rest (device_of image.old) }
        ensures room { room result ≡ min (length places.old) (length blocks.old / 512) }
        ensures count { result.count ≡ 0 }
    {
        Disk {
            image,
            places,
            blocks,
            count: 0,
        }
    }

    // What is safe.
    pub fn image(&self) -> &[u8]
        ensures { result.now ≡ self.now.image.now }
    {
        self.image
    }

    // Keeps a write, or not: nothing else is to be told. It is refused where it is no whole block, where there is no such block, or where there is no room.
    pub fn write(&mut self, k: u64, block: &[u8]) -> bool
        ensures taken { result ≡ takes self.old k block.now }
        ensures held { holds self.new ≡ pick result (done {A = Answer} (holds self.old) (written k block.now)) (holds self.old) }
        ensures same_image { SameImage self.old self.new }
        ensures image { self.new.image.now ≡ self.old.image.now }
        ensures room { room self.new ≡ room self.old }
        ensures count { self.new.count ≡ self.old.count + pick result 1 0 }
    {
        let end = blocks_in(self.image());
        if !keep_write(self.places, self.blocks, self.count, end, k, block) {
            return false;
        }
        self.count += 1;
        true
    }

    // Makes all writes safe.
    #[tactic(auto, unfolding(crate::specs::Held::done))]
    pub fn flush(&mut self)
        ensures held { holds self.new ≡ done {A = Answer} (holds self.old) flushed }
        ensures same_image { SameImage self.old self.new }
        ensures room { room self.new ≡ room self.old }
        ensures count { self.new.count ≡ 0 }
    {
        put_writes(self.image, &self.places[..self.count], self.blocks);
        self.count = 0;
    }

    // Power is lost. The row has a number for each block that was written since the last flush, in the order of their first write: 0 leaves it as it was, n as the
    // n-th write to it made it, or the last where there are fewer. A number that lacks counts as 0.
    pub fn cut(&mut self, row: &[u64])
        ensures row { (k : ℕ) → device_of self.new.image.now k ≡ cut_by row.now (holds self.old) k }
        ensures left { (d : Device) (xs : List Act) → holds self.old ≡ dones (at_rest d) xs → LeftBy d xs (device_of self.new.image.now) }
        ensures held { holds self.new ≡ at_rest (device_of self.new.image.now) }
        ensures same_image { SameImage self.old self.new }
        ensures room { room self.new ≡ room self.old }
        ensures count { self.new.count ≡ 0 }
    {
        put_left(self.image, &self.places[..self.count], self.blocks, row);
        self.count = 0;
    }
}
