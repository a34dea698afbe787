// Answers as lines of numbers, and why a call was turned away, in words.
ghost use Rattle.std.specs.Prelude.{◌≡◌, IfOk, string_bytes, slice_index_or};
ghost use Rattle.text.specs.Lines.{number_line, row_numbers};
ghost use Rattle.text.specs.Reasons.{reasons, unknown};

use std::alloc::{AllocError, Global};
use std::fmt::Write;
use wire::bytes::number_at;

// The line of an answer's bytes, or of any row: the first byte, and each eight bytes behind it as a number; fewer than eight at the end are left out, and the
// line of no bytes is empty.
pub fn write_answer_line(heap: Global, answer: &[u8]) -> Result<String, AllocError>
    ensures { IfOk result (λ s. string_bytes s ≡ number_line (row_numbers answer.now)) }
{
    let Some((first, fields)) = answer.split_first() else {
        return Ok(String::new(heap));
    };
    let mut line = format!(in heap; "{first}")?;
    for field in fields.chunks_exact(8) {
        let number = number_at(field, 0, 8);
        write!(line, " {number}")?;
    }
    Ok(line)
}

// What is said of a number that is no refusal's.
const UNKNOWN: &str = "not known";

// Why a call is turned away, by the number of the refusal; no refusal has the number 0.
static REASONS: [&str; 11] = [
    UNKNOWN,
    "the call cannot be read",
    "an amount of 0, or an amount, a limit or a rate that is too large",
    "the memory, the device or the limits do not fit",
    "there is no such account",
    "from an account to itself",
    "the value day is after today, or more than 60 days before it",
    "not enough on the account",
    "there is no such booking, it is interest, or it was taken back",
    "known only on a day after today",
    "the book has no room for it",
];

// Why a call is turned away by a number: an answer's bytes have no more than that.
pub fn refusal_words(number: u64) -> &'static str
    ensures { result.now ≡ slice_index_or reasons number unknown }
{
    REASONS.get(number as usize).copied().unwrap_or(UNKNOWN)
}
