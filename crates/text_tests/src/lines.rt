// Lines and the rows that they stand for, and calls as lines.
use std::alloc::Global;
use std::process::Abort;
use std::test::Fail;
use text::line::{LONGEST, read_line, write_call};
use wire::call::Call;

// A line stands for a row, and nothing behind that is changed.
fn reads(rt: &impl Abort, line: &[u8], row: &[u8]) {
    let mut out = [0xff; LONGEST];
    let end = read_line(line, &mut out).expect(rt, "the line stands for a row");
    assert_eq!(rt; &out[..end], row);
    assert!(rt; out[end..].iter().all(|b| *b == 0xff));
}

// A line stands for no row, and nothing is changed.
fn unread(rt: &impl Abort, line: &[u8]) {
    let mut out = [0xff; LONGEST];
    assert_eq!(rt; read_line(line, &mut out), None);
    assert_eq!(rt; out, [0xff; LONGEST]);
}

#[test]
fn lines_in_words(rt: HostRuntime) {
    reads(
        &rt,
        b"open 5000 365",
        b"\0\x88\x13\0\0\0\0\0\0\x6d\x01\0\0\0\0\0\0",
    );
    reads(
        &rt,
        b"rate 2 365",
        b"\x01\x02\0\0\0\0\0\0\0\x6d\x01\0\0\0\0\0\0",
    );
    let moved = b"\x02\0\0\0\0\0\0\0\0\x02\0\0\0\0\0\0\0\x03\0\0\0\0\0\0\0\x80\x1a\x06\0\0\0\0\0";
    reads(&rt, b"move 0 from 2 to 3 400000", moved);
    reads(&rt, b"  move 0 from  2 to\t3 0400000 \r", moved);
    reads(&rt, b"take back 1", b"\x03\x01\0\0\0\0\0\0\0");
    reads(&rt, b"day ends", b"\x04");
    reads(
        &rt,
        b"balance 2 30 31",
        b"\x05\x02\0\0\0\0\0\0\0\x1e\0\0\0\0\0\0\0\x1f\0\0\0\0\0\0\0",
    );
    reads(
        &rt,
        b"statement 2 0 30",
        b"\x06\x02\0\0\0\0\0\0\0\0\0\0\0\0\0\0\0\x1e\0\0\0\0\0\0\0",
    );
    reads(&rt, b"sums", b"\x07");
    reads(&rt, b"taken\r", b"\x08");
}

#[test]
fn lines_of_numbers(rt: HostRuntime) {
    reads(
        &rt,
        b"2 0 2 3 400000",
        b"\x02\0\0\0\0\0\0\0\0\x02\0\0\0\0\0\0\0\x03\0\0\0\0\0\0\0\x80\x1a\x06\0\0\0\0\0",
    );
    reads(&rt, b"4", b"\x04");
    reads(&rt, b" 3   258 ", b"\x03\x02\x01\0\0\0\0\0\0");
    reads(&rt, b"3", b"\x03");
    reads(&rt, b"255 1", b"\xff\x01\0\0\0\0\0\0\0");
    reads(
        &rt,
        b"7 18446744073709551615",
        b"\x07\xff\xff\xff\xff\xff\xff\xff\xff",
    );
    reads(
        &rt,
        b"0 1 0 0 0 0 0 0 0",
        b"\0\x01\0\0\0\0\0\0\0\0\0\0\0\0\0\0\0\0\0\0\0\0\0\0\0\0\0\0\0\0\0\0\0\0\0\0\0\0\0\0\0\0\0\0\0\0\0\0\0\0\0\0\0\0\0\0\0\0\0\0\0\0\0\0\0",
    );
}

// Lines that stand for no row.
const NO_ROWS: [&str; 28] = [
    "",
    "  \t\r",
    "256",
    "1 18446744073709551616",
    "1 99999999999999999999",
    "1 2 3 4 5 6 7 8 9 10",
    "+1",
    "-1",
    "1.5",
    "1,2",
    "1 two",
    "0x10",
    "open",
    "open 5000",
    "open 5000 365 1",
    "open # #",
    "Open 5000 365",
    "opens 5000 365",
    "open 5000 18446744073709551616",
    "move 0 2 3 400000",
    "move 0 to 3 from 2 400000",
    "take 1",
    "takeback 1",
    "day",
    "days end",
    "sums 1",
    "taken.",
    "\0",
];

#[test]
fn lines_of_no_row(rt: HostRuntime) {
    for line in &NO_ROWS {
        unread(&rt, line.as_bytes());
    }
}

// A call is written as a line, and that is read as the call's own row.
fn written(rt: &impl Abort, heap: Global, call: Call, text: &str) -> Result<(), Fail> {
    let line = write_call(heap, call)?;
    assert_eq!(rt; line.as_str(), text);
    let mut row = [0; LONGEST];
    let mut own = [0; LONGEST];
    let end = wire::call::write_call(&mut own, call);
    assert_eq!(rt; read_line(line.as_str().as_bytes(), &mut row), end);
    assert_eq!(rt; row, own);
    Ok(())
}

#[test]
fn calls_as_lines(rt: HostRuntime) -> Result<(), Fail> {
    let heap = rt.alloc();
    let open = Call::Open {
        limit: 5000,
        rate: 365,
    };
    written(&rt, heap, open, "open 5000 365")?;
    written(
        &rt,
        heap,
        Call::Rate {
            account: 2,
            rate: 0,
        },
        "rate 2 0",
    )?;
    let moved = Call::Move {
        value: 0,
        from: 2,
        to: 3,
        amount: 400_000,
    };
    written(&rt, heap, moved, "move 0 from 2 to 3 400000")?;
    let last = Call::TakeBack { booking: u64::MAX };
    written(&rt, heap, last, "take back 18446744073709551615")?;
    written(&rt, heap, Call::DayEnds, "day ends")?;
    let balance = Call::Balance {
        account: 2,
        value: 30,
        known: 31,
    };
    written(&rt, heap, balance, "balance 2 30 31")?;
    let statement = Call::Statement {
        account: 2,
        first: 0,
        last: 30,
    };
    written(&rt, heap, statement, "statement 2 0 30")?;
    written(&rt, heap, Call::Sums, "sums")?;
    written(&rt, heap, Call::Taken, "taken")
}
