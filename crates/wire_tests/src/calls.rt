// Rows of bytes that are calls, and rows that are none, with the place where they cease to be one.
ghost use Rattle.std.specs.Prelude.{◌≤◌};

use std::process::Abort;
use wire::call::{Call, read_call, write_call};

// How long the row of each call is.
const SIZES: [usize; 9] = [17, 17, 33, 9, 1, 25, 25, 1, 1];

// Where a row ceases to be a call; none where it is one.
fn refusal(bytes: &[u8]) -> Option<usize> {
    read_call(bytes).err()
}

// So of a row of a first byte and others that are all the same.
fn refusal_of(first: u8, others: u8, len: usize) -> Option<usize>
    requires { len ≤ 40 }
{
    let mut row = [others; 40];
    row[0] = first;
    refusal(&row[0..len])
}

// Where a row of a known first byte and a length should cease to be a call.
fn expected(size: usize, len: usize) -> Option<usize> {
    if len == size {
        None
    } else {
        Some(len.min(size))
    }
}

// A call is written so, with nothing behind it changed, and not into a byte less; and it is read again.
fn check_row(rt: &impl Abort, call: Call, row: &[u8]) {
    let mut out = [0xff; 40];
    assert!(rt; 0 < row.len() && row.len() <= 40);
    assert_eq!(rt; write_call(&mut out[0..row.len() - 1], call), None);
    assert_eq!(rt; out, [0xff; 40]);
    assert_eq!(rt; write_call(&mut out, call), Some(row.len()));
    assert_eq!(rt; &out[0..row.len()], row);
    assert_eq!(rt; &out[row.len()..40], &[0xff; 40][row.len()..40]);
    assert_eq!(rt; read_call(row), Ok(call));
}

#[test]
fn every_length_of_every_call(rt: HostRuntime) {
    for (first, size) in SIZES.iter().enumerate() {
        for len in 0..41 {
            assert_eq!(rt; refusal_of(first as u8, 0, len), expected(*size, len));
            assert_eq!(rt; refusal_of(first as u8, 0xff, len), expected(*size, len));
        }
    }
}

#[test]
fn no_call_begins_so(rt: HostRuntime) {
    for first in 9..=255u8 {
        for len in 0..41 {
            assert_eq!(rt; refusal_of(first, 0, len), Some(0));
            assert_eq!(rt; refusal_of(first, 0xff, len), Some(0));
        }
    }
}

#[test]
fn rows_of_calls(rt: HostRuntime) {
    let open = Call::Open {
        limit: 1,
        rate: 0x0201,
    };
    check_row(&rt, open, b"\x00\x01\0\0\0\0\0\0\0\x01\x02\0\0\0\0\0\0");
    let order = Call::Move {
        value: 0x0102030405060708,
        from: u64::MAX,
        to: 0,
        amount: 100_000_000_000,
    };
    check_row(
        &rt,
        order,
        b"\x02\x08\x07\x06\x05\x04\x03\x02\x01\xff\xff\xff\xff\xff\xff\xff\xff\0\0\0\0\0\0\0\0\0\xe8\x76\x48\x17\0\0\0",
    );
    let balance = Call::Balance {
        account: 4095,
        value: 3650,
        known: 30,
    };
    check_row(
        &rt,
        balance,
        b"\x05\xff\x0f\0\0\0\0\0\0\x42\x0e\0\0\0\0\0\0\x1e\0\0\0\0\0\0\0",
    );
    check_row(&rt, Call::Taken, b"\x08");
}
