// The words of a line: what stands between blanks; and the number that a word is.
ghost use Rattle.std.specs.Prelude.{◌≡◌, not, [], ◌∷◌, Some, None, position};
ghost use Rattle.std.specs.Iterator.{YieldsFirstRef, item_count};
ghost use Rattle.text.specs.Words.{blank, digit_more, word_number, words};

use std::marker::Model;

// Does a byte stand between words: a space, a tab or a carriage return?
fn is_blank(b: u8) -> bool
    ensures { result ≡ blank b }
{
    matches!(b, b' ' | b'\t' | b'\r')
}

// Where the first word of a line begins, if it has one.
fn word_start(line: &[u8]) -> Option<usize>
    ensures { result ≡ position (λ b. not (blank b)) line.now }
{
    line.iter().position(|b| !is_blank(*b))
}

// Where the word ends that a line begins with, if something stands behind it.
fn word_end(line: &[u8]) -> Option<usize>
    ensures { result ≡ position blank line.now }
{
    line.iter().position(|b| is_blank(*b))
}

// The first word of a line, and what stands behind it.
fn first_word(line: &[u8]) -> Option<(&[u8], &[u8])>
    ensures { elim result [ Some w ↦ words line.now ≡ w.0.now ∷ words w.1.now | None ↦ words line.now ≡ [] ] }
{
    let start = word_start(line)?;
    let line = &line[start..];
    let end = word_end(line).unwrap_or(line.len());
    Some(line.split_at(end))
}

// The words of a line that are left to read.
#[derive(Drop)]
pub(crate) struct Words<'a> {
    rest: &'a [u8],
}

impl<'a> Model for Words<'a> {
    ghost use Rattle.std.specs.Prelude.{ℕ, List};
    ghost use Rattle.text.specs.Words.{words};

    ghost Value = { List (List ℕ) };

    ghost view = { λ w. words w.rest.now };
}

impl<'a> Words<'a> {
    // All words of a line.
    pub(crate) fn of(line: &'a [u8]) -> Words<'a>
        ensures { result ≡ words line.now }
    {
        Words { rest: line }
    }
}

impl<'a> Iterator for Words<'a> {
    type Item = &'a [u8];

    ghost next_gives = { YieldsFirstRef (λ ws. ws) };

    ghost remaining = { item_count (λ ws. ws) };

    fn next(&mut self) -> Option<&'a [u8]> {
        let (word, rest) = first_word(self.rest)?;
        self.rest = rest;
        Some(word)
    }
}

// A number with one digit more, if the byte is a digit and the number does not grow too large.
fn with_digit(n: u64, b: u8) -> Option<u64>
    ensures { result ≡ digit_more n b }
{
    if !b.is_ascii_digit() {
        return None;
    }
    n.checked_mul(10)?.checked_add((b - b'0') as u64)
}

// The number that a word is, if it is one; `parse` would take a sign, too.
pub(crate) fn number_in(word: &[u8]) -> Option<u64>
    ensures { result ≡ word_number word.now }
{
    word.iter().try_fold(0, |n, b| with_digit(n, *b))
}
