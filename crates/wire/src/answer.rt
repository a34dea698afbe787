// What the bank answers, and an answer as bytes: a byte, and numbers of eight bytes each, low byte first.
//
// | byte | answer | numbers |
// |---|---|---|
// | 0 | refused | the refusal's number, the place |
// | 1 | a number | the number |
// | 2 | amounts | what came, what left |
// | 3 | lines | how many bookings; of each booked, value day, from, to, amount, kind, and 0 or the day after the one on which it was taken back |
ghost use Rattle.std.specs.Prelude.{◌≡◌, ◌+◌, ◌*◌, ◌≤◌, max, List, length};
ghost use Rattle.bank.specs.Book.{Booking as Entry};
ghost use Rattle.bank.specs.Calls.{lines};
ghost use Rattle.device.specs.Rows.{with_bytes};
ghost use Rattle.wire.specs.Answered.{AnswersFit, Begun, Follows, Streams, Suffices, answered, written_booking};
ghost use Rattle.wire.specs.Booked.{booked};

use crate::booking::{Booking, mark_number};
use crate::bytes::{eights, put_form, put_numbers, write_form};

// `Lines` is followed by as many bookings as it says. A reason and a place are numbers here, since an answer of any bytes can be written; the cases are the desk's `Refusal`.
#[derive(Clone, Copy, Debug, PartialEq, Eq)]
pub enum Answer {
    Refused { reason: u64, place: u64 },
    Number(u64),
    Amounts { came: u64, left: u64 },
    Lines { count: u64 },
}

// How many bytes the longest answer without bookings has, the count before bookings, and a booking.
const PLAIN: usize = 17;

const HEAD: usize = 9;

const LINE: usize = 56;

// How many bytes suffice for every answer of a book with at most so many bookings.
pub fn most_answer(bookings: u32) -> usize
    ensures is { result ≡ max 17 (9 + 56 * bookings) }
    ensures suffices { Suffices bookings result }
    ensures fits { AnswersFit bookings result }
{
    PLAIN.max(HEAD + LINE * bookings as usize)
}

// Begins an answer in `out`, if there is room for all of it, with the bookings that follow `Lines`; says where these begin.
pub fn write_answer(out: &mut [u8], answer: Answer) -> Option<usize>
    ensures { (bs : List Entry) → Follows answer bs → Begun out.old (answered answer bs) out.new result }
{
    match answer {
        Answer::Refused { reason, place } => write_form(out, 0, &[reason, place]),
        Answer::Number(n) => write_form(out, 1, &[n]),
        Answer::Amounts { came, left } => write_form(out, 2, &[came, left]),
        Answer::Lines { count } => write_count(out, count),
    }
}

// Begins an answer of as many bookings, if there is room for them.
fn write_count(out: &mut [u8], count: u64) -> Option<usize>
    ensures { (bs : List Entry) → count ≡ length bs → Begun out.old (lines bs) out.new result }
{
    if out.len() < HEAD || count > ((out.len() - HEAD) / LINE) as u64 {
        return None;
    }
    Some(put_form(out, 3, &[count]))
}

// Writes a booking at `at`, behind those that were written before; says where the next begins.
pub fn write_booking(out: &mut [u8], at: usize, booking: Booking) -> usize
    requires { at + 56 ≤ length out.old }
    ensures after { out.new ≡ with_bytes out.old at (written_booking (booked booking)) }
    ensures end { result ≡ at + 56 }
{
    let numbers = [
        booking.on as u64,
        booking.value as u64,
        booking.from as u64,
        booking.to as u64,
        booking.amount,
        u32::from(booking.kind) as u64,
        mark_number(booking.back),
    ];
    put_numbers(out, at, eights(7), &numbers)
}

// Theorems of answers: an answer that was begun, and its bookings one by one behind it, are its row.
pub fn answers_stand() -> u8
    ensures { Streams }
{
    0
}
