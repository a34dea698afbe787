// Lines of calls. The words of a line stand between blanks: spaces, tabs and carriage returns, as many as there are, at its ends too. A number is decimal digits,
// of a value below 2^64. A line of numbers stands for a row of bytes: the first number, below 256, is its first byte, and up to eight others are eight bytes
// each, low byte first; so it can also be a row that is no call. A line in words stands for the row of its call:
//
// | byte | line |
// |---|---|
// | 0 | open LIMIT RATE |
// | 1 | rate ACCOUNT RATE |
// | 2 | move VALUE-DAY from ACCOUNT to ACCOUNT AMOUNT |
// | 3 | take back BOOKING |
// | 4 | day ends |
// | 5 | balance ACCOUNT VALUE-DAY KNOWN-DAY |
// | 6 | statement ACCOUNT FIRST-DAY LAST-DAY |
// | 7 | sums |
// | 8 | taken |
ghost use Rattle.std.specs.Prelude.{◌≡◌, ◌+◌, ◌<◌, ◌≤◌, length, IfOk, IfSome, Some, string_bytes};
ghost use Rattle.wire.specs.Meaning.{meant};
ghost use Rattle.text.specs.Words.{words};
ghost use Rattle.text.specs.Listed.{found, listed};
ghost use Rattle.text.specs.Lines.{Examples, Matched, ReadsNumbers, ReadsWords, RowWritten, ToldNumbers, by_forms, call_forms, call_line, few_numbers, followed, form_numbers, line_numbers, row_in, row_of_numbers};

use crate::numbers::Numbers;
use crate::word::{Words, number_in};
use std::alloc::{AllocError, Global};
use std::fmt;
use wire::bytes::put_form;
use wire::call::Call;

// The most bytes that a row can have that a line stands for: a byte, and eight for each number behind it.
pub const LONGEST: usize = 65;

// The forms of calls in words, in the order of the bytes that calls begin with; a mark stands for a number.
static FORMS: [&str; 9] = [
    "open # #",
    "rate # #",
    "move # from # to # #",
    "take back #",
    "day ends",
    "balance # # #",
    "statement # # #",
    "sums",
    "taken",
];

// The word of a form that stands for a number.
const MARK: &[u8] = b"#";

// Reads a word by the word of a form: a number more where that is a mark, else the same word.
fn read_by(mark: &[u8], word: &[u8], numbers: &mut Numbers) -> Option<()>
    requires { numbers.old.count < 9 }
    ensures read { Matched (listed numbers.old) mark.now word.now (listed numbers.new) result }
    ensures few { numbers.new.count ≤ numbers.old.count + 1 }
{
    if mark == MARK {
        numbers.push(number_in(word)?);
        return Some(());
    }
    (mark == word).then_some(())
}

// The numbers of a line by a form, behind the number of that form.
fn numbers_by(number: u64, form: &[u8], line: &[u8]) -> Option<Numbers>
    requires { length (words form.now) ≤ 8 }
    ensures { found result ≡ followed (Some number) (form_numbers (words form.now) (words line.now)) }
{
    let mut numbers = Numbers::new();
    numbers.push(number);
    let mut words = Words::of(line);
    for mark in Words::of(form) {
        let word = words.next()?;
        read_by(mark, word, &mut numbers)?;
    }
    match words.next() {
        Some(_) => None,
        None => Some(numbers),
    }
}

// The numbers of a line in words, behind the byte that its call begins with.
fn in_words(line: &[u8]) -> Option<Numbers>
    ensures { found result ≡ by_forms 0 call_forms (words line.now) }
{
    FORMS.iter().enumerate().find_map(|(number, form)| numbers_by(
        number as u64,
        form.as_bytes(),
        line,
    ))
}

// The numbers of a line that has only numbers, and few enough.
fn in_numbers(line: &[u8]) -> Option<Numbers>
    ensures { found result ≡ few_numbers (words line.now) }
{
    let mut numbers = Numbers::new();
    for word in Words::of(line) {
        if numbers.is_full() {
            return None;
        }
        let n = number_in(word)?;
        numbers.push(n);
    }
    Some(numbers)
}

// The numbers that a line stands for.
fn numbers_in(line: &[u8]) -> Option<Numbers>
    ensures { found result ≡ line_numbers (words line.now) }
{
    in_words(line).or_else(|| in_numbers(line))
}

// Writes the row of some numbers: the first as a byte, and eight bytes for each other.
fn put_row(numbers: &[u64], row: &mut [u8; LONGEST]) -> Option<usize>
    requires { length numbers.now ≤ 9 }
    ensures written { RowWritten (row_of_numbers (Some numbers.now)) row.old row.new result }
    ensures within { IfSome result (λ n. n ≤ 65) }
{
    let (first, fields) = numbers.split_first()?;
    let byte = u8::try_from(*first).ok()?;
    Some(put_form(row, byte, fields))
}

// Writes the row of bytes that a line stands for at the beginning of `row`, and says how many bytes it has; none where a line stands for no row.
// It hands on a length and no part of `row`: with a part lent out, what stands behind it could not be proved unchanged.
pub fn read_line(line: &[u8], row: &mut [u8; LONGEST]) -> Option<usize>
    ensures written { RowWritten (row_in line.now) row.old row.new result }
    ensures within { IfSome result (λ n. n ≤ 65) }
{
    put_row(numbers_in(line)?.as_slice(), row)
}

// A call that is printed as its line in words.
#[derive(Clone, Copy)]
pub struct InWords(pub Call);

impl fmt::Display for InWords {
    ghost output = { λ line. Some (call_line (meant line.0)) };

    #[tactic(auto, unfolding(crate::specs::Words::words_on))]
    fn fmt<W: fmt::Write>(&self, f: &mut fmt::Formatter<W>) -> fmt::Result {
        match self.0 {
            Call::Open { limit, rate } => write!(f, "open {limit} {rate}"),
            Call::Rate { account, rate } => write!(f, "rate {account} {rate}"),
            Call::Move {
                value,
                from,
                to,
                amount,
            } => write!(f, "move {value} from {from} to {to} {amount}"),
            Call::TakeBack { booking } => write!(f, "take back {booking}"),
            Call::DayEnds => write!(f, "day ends"),
            Call::Balance {
                account,
                value,
                known,
            } => write!(f, "balance {account} {value} {known}"),
            Call::Statement {
                account,
                first,
                last,
            } => write!(f, "statement {account} {first} {last}"),
            Call::Sums => write!(f, "sums"),
            Call::Taken => write!(f, "taken"),
        }
    }
}

// The line of a call in words.
pub fn write_call(heap: Global, call: Call) -> Result<String, AllocError>
    ensures { IfOk result (λ s. string_bytes s ≡ call_line (meant call)) }
{
    InWords(call).to_string(heap)
}

// What is read is what was written: a call in words, and any row as numbers.
pub fn lines_stand() -> u8
    ensures words { ReadsWords }
    ensures numbers { ReadsNumbers }
    ensures told { ToldNumbers }
    ensures examples { Examples }
{
    0
}
