// What the programs read and print: lines of calls as rows of bytes, and answers as lines.
ghost use Rattle.std.specs.Prelude.{◌≡◌, [], IfOk, unwrap_or};
ghost use Rattle.text.specs.Lines.{row_in};

use anyhow::anyhow;
use std::alloc::{AllocError, Global};
use text::answer::write_answer_line;
use text::line::{LONGEST, read_line};

// The row of bytes that a line stands for, in lent bytes; one that stands for none is as a row of no bytes.
pub fn read_row<'r>(line: &str, row: &'r mut [u8; LONGEST]) -> &'r [u8]
    ensures { result.now ≡ unwrap_or (row_in line.now) [] }
{
    let n = read_line(line.as_bytes(), row).unwrap_or(0);
    &row[..n]
}

// The same row, on the heap.
pub fn row_of(heap: Global, line: &str) -> Result<Vec<u8>, AllocError>
    ensures { IfOk result (λ row. row.items ≡ unwrap_or (row_in line.now) []) }
{
    read_row(line, &mut [0; LONGEST]).to_vec(heap)
}

// Prints the answer that some bytes are.
pub fn say(rt: &HostRuntime, answer: &[u8]) -> anyhow::Result<()> {
    let line = write_answer_line(rt.alloc(), answer)?;
    println!(rt; "{line}")?;
    Ok(())
}

// How many bytes an answer has that no bookings follow, by its first: behind it stands one number, or two.
fn answer_length(first: u8) -> usize {
    if first == 1 { 9 } else { 17 }
}

// Prints answers that stand one behind another, and that no bookings follow.
pub fn say_all(rt: &HostRuntime, said: &[u8], answers: usize) -> anyhow::Result<()> {
    let mut rest = said;
    for _ in 0..answers {
        let Some(first) = rest.first() else {
            return Err(anyhow!("an answer without bytes"));
        };
        let (answer, behind) = rest.split_at(answer_length(*first).min(rest.len()));
        say(rt, answer)?;
        rest = behind;
    }
    Ok(())
}

#[cfg(test)]
mod tests {
    use super::*;
    use std::test::Fail;

    #[test]
    fn rows_of_lines(rt: HostRuntime) -> Result<(), Fail> {
        assert_eq!(rt; row_of(rt.alloc(), "taken")?.as_slice(), b"\x08".as_slice());
        assert!(rt; row_of(rt.alloc(), "nothing")?.is_empty());
        Ok(())
    }

    #[test]
    fn answers_are_said(rt: HostRuntime) {
        let said = b"\x01\x05\0\0\0\0\0\0\0\0\x07\0\0\0\0\0\0\0\x01\0\0\0\0\0\0\0";
        assert!(rt; say(&rt, &said[..9]).is_ok());
        assert!(rt; say_all(&rt, said, 2).is_ok());
        assert!(rt; say_all(&rt, said, 3).is_err());
    }
}
