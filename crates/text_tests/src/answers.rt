// Answers as lines of numbers, and the reasons of refusals.
use std::alloc::Global;
use std::process::Abort;
use std::test::Fail;
use text::answer::{refusal_words, write_answer_line};

fn told(rt: &impl Abort, heap: Global, answer: &[u8], line: &str) -> Result<(), Fail> {
    let written = write_answer_line(heap, answer)?;
    assert_eq!(rt; written.as_str(), line);
    Ok(())
}

#[test]
fn answers_as_lines(rt: HostRuntime) -> Result<(), Fail> {
    let heap = rt.alloc();
    told(&rt, heap, b"\x01\0\0\0\0\0\0\0\0", "1 0")?;
    told(
        &rt,
        heap,
        b"\x02\x40\x42\x0f\0\0\0\0\0\x80\x1a\x06\0\0\0\0\0",
        "2 1000000 400000",
    )?;
    told(
        &rt,
        heap,
        b"\0\x07\0\0\0\0\0\0\0\x01\0\0\0\0\0\0\0",
        "0 7 1",
    )?;
    told(
        &rt,
        heap,
        b"\x01\xff\xff\xff\xff\xff\xff\xff\xff",
        "1 18446744073709551615",
    )?;
    told(&rt, heap, b"", "")?;
    told(&rt, heap, b"\xff", "255")?;
    told(&rt, heap, b"\x01\x02\x03", "1")?;
    told(&rt, heap, b"\x01\x02\0\0\0\0\0\0\0\x03", "1 2")
}

#[test]
fn a_statement(rt: HostRuntime) -> Result<(), Fail> {
    let answer =
        b"\x03\x01\0\0\0\0\0\0\0\0\0\0\0\0\0\0\0\0\0\0\0\0\0\0\0\0\0\0\0\0\0\0\0\x02\0\0\0\0\0\0\0\x40\x42\x0f\0\0\0\0\0\0\0\0\0\0\0\0\0\0\0\0\0\0\0\0\0";
    told(&rt, rt.alloc(), answer, "3 1 0 0 0 2 1000000 0 0")
}

#[test]
fn reasons(rt: HostRuntime) {
    assert_eq!(rt; refusal_words(0), "not known");
    assert_eq!(rt; refusal_words(1), "the call cannot be read");
    assert_eq!(rt; refusal_words(7), "not enough on the account");
    assert_eq!(rt; refusal_words(10), "the book has no room for it");
    assert_eq!(rt; refusal_words(11), "not known");
    assert_eq!(rt; refusal_words(u64::MAX), "not known");
}
