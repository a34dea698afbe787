// A life with a budget of acts: the book is kept on an image of the device, which is left as the cut leaves it.
use crate::refuse;
use life::lent::Lent;
use life::life;
use std::alloc::{AllocError, Global};
use std::fs;
use store::lines::{read_row, say_all};
use store::memory::Memory;
use store::{BLOCK, LIMITS};
use text::line::LONGEST;
use wire::answer::most_answer;

// The rows that lines stand for, one behind another, and where each ends: a vector for each would take twice the memory.
fn rows_of(heap: Global, calls: &str) -> Result<(Vec<u8>, Vec<usize>), AllocError> {
    let mut rows = Vec::new(heap);
    let mut ends = Vec::new(heap);
    for line in calls.lines() {
        rows.extend_from_slice(read_row(line, &mut [0; LONGEST]))?;
        ends.push(rows.len())?;
    }
    Ok((rows, ends))
}

// The rows, each as a part of all of them.
fn parts<'a>(heap: Global, rows: &'a [u8], ends: &[usize]) -> Result<Vec<&'a [u8]>, AllocError> {
    let mut parts = Vec::new(heap);
    let mut from = 0;
    for end in ends {
        let to = (*end).min(rows.len());
        if from <= to {
            parts.push(&rows[from..to])?;
            from = to;
        }
    }
    Ok(parts)
}

// Keeps the book of a device until the budget of acts is used; what is left of the unflushed writes the row says.
pub fn keep_cut(
    rt: &HostRuntime,
    device: &str,
    calls: &str,
    budget: u64,
    row: &[u64],
) -> anyhow::Result<()> {
    let heap = rt.alloc();
    let mut image = fs::read(rt, device)?;
    let (rows, ends) = rows_of(heap, calls)?;
    let calls = parts(heap, &rows, &ends)?;
    let mut said = vec![in heap; 0u8; calls.len().saturating_mul(most_answer(0))]?;
    let mut memory = Memory::new(heap, LIMITS)?;
    let mut places = [0];
    let mut blocks = [0; BLOCK];
    let lent = Lent::of(memory.lend(), &mut places, &mut blocks);
    match life(LIMITS, lent, &mut image, &mut said, &calls, budget, row) {
        Ok(heard) => {
            fs::write(rt, device, image.as_slice())?;
            say_all(rt, &said, heard.answers)
        }
        Err(misfit) => refuse(rt, misfit),
    }
}
