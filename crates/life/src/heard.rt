// What was heard of a session: the bytes of its answers, one behind another, in lent bytes.
ghost use Rattle.std.specs.Prelude.{◌≡◌, ◌+◌, ◌-◌, ◌*◌, ◌<◌, ◌≤◌, true, ◌++◌, length, take, nat_le};
ghost use Rattle.bank.specs.Promise.{readable, all_readable};
ghost use Rattle.wire.specs.Format.{read_call_lem};
ghost use Rattle.life.specs.Heard.{rows_read, spoken_in, free_in, Behind};

use wire::answer::most_answer;

// How many answers were heard, and how many bytes they have.
#[derive(Clone, Copy)]
pub struct Heard {
    pub answers: usize,
    pub bytes: usize,
}

// Lent bytes in which the answers that were heard stand one behind another; each has one byte at least.
#[derive(Drop)]
pub(crate) struct Listener<'a> {
    said: &'a mut [u8],
    heard: Heard,
    pub ghost inside: { heard.bytes ≤ length said.now },
    pub ghost counted: { heard.answers ≤ heard.bytes },
}

// The first n bytes, or all where there are fewer.
pub(crate) fn first(bytes: &[u8], n: usize) -> &[u8]
    ensures { result.now ≡ take n bytes.now }
{
    &bytes[..n.min(bytes.len())]
}

// How many bytes the answer to a call may have at most: in the first stage no bookings follow it, whatever the call.
fn longest_answer(row: &[u8]) -> usize
    ensures most { result ≡ 17 }
    ensures readable { readable (read_call_lem row.now) ≡ true }
{
    most_answer(0)
}

// Is there room for the answers to all calls? A loop: by `try_fold` the search alone found no proof.
pub(crate) fn can_hear(said: &[u8], calls: &[&[u8]]) -> bool
    ensures room { result ≡ nat_le (17 * length calls.now) (length said.now) }
    ensures readable { result ≡ true → all_readable (rows_read calls.now) ≡ true }
{
    let mut free = said.len();
    for row in calls {
        let most = longest_answer(*row);
        if free < most {
            return false;
        }
        free -= most;
    }
    true
}

impl<'a> Listener<'a> {
    // One that has heard nothing.
    pub(crate) fn new(said: &'a mut [u8]) -> Listener<'a>
        ensures same_said { result.said.ghost_name ≡ said.entry.ghost_name }
        ensures said { result.said.now ≡ said.old }
        ensures heard { result.heard ≡ record { answers = 0; bytes = 0 } }
    {
        Listener {
            said,
            heard: Heard {
                answers: 0,
                bytes: 0,
            },
        }
    }

    // Hears an answer, behind the others.
    pub(crate) fn hear(&mut self, answer: &[u8])
        requires some { 0 < length answer.now }
        requires room { length answer.now ≤ free_in self.old.said.now self.old.heard }
        ensures same_said { self.new.said.ghost_name ≡ self.old.said.ghost_name }
        ensures spoken { spoken_in self.new.said.now self.new.heard ≡ spoken_in self.old.said.now self.old.heard ++ answer.now }
        ensures behind { Behind self.old.said.now self.old.heard self.new.said.now self.new.heard }
        ensures answers { self.new.heard.answers ≡ self.old.heard.answers + 1 }
        ensures free { free_in self.new.said.now self.new.heard ≡ free_in self.old.said.now self.old.heard - length answer.now }
    {
        let at = self.heard.bytes;
        let end = at + answer.len();
        self.said[at..end].copy_from_slice(answer);
        self.heard.bytes = end;
        self.heard.answers += 1;
    }

    // What it has heard.
    pub(crate) fn heard(&self) -> Heard
        ensures { result ≡ self.now.heard }
    {
        self.heard
    }
}
