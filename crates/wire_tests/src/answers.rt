// Answers as bytes, and how many suffice.
ghost use Rattle.std.specs.Prelude.{◌≤◌};

use std::process::Abort;
use wire::answer::{Answer, most_answer, write_answer, write_booking};
use wire::booking::{Booking, Kind};

// An answer without bookings is written so, with nothing behind it changed, and not into a byte less.
fn check_answer(rt: &impl Abort, answer: Answer, row: &[u8]) {
    let mut out = [0xff; 18];
    assert!(rt; 0 < row.len() && row.len() <= 18);
    assert_eq!(rt; write_answer(&mut out[0..row.len() - 1], answer), None);
    assert_eq!(rt; out, [0xff; 18]);
    assert_eq!(rt; write_answer(&mut out, answer), Some(row.len()));
    assert_eq!(rt; &out[0..row.len()], row);
    assert_eq!(rt; &out[row.len()..18], &[0xff; 18][row.len()..18]);
}

#[test]
fn rows_of_answers(rt: HostRuntime) {
    let refused = Answer::Refused {
        reason: 7,
        place: 1,
    };
    check_answer(&rt, refused, b"\x00\x07\0\0\0\0\0\0\0\x01\0\0\0\0\0\0\0");
    check_answer(&rt, Answer::Number(258), b"\x01\x02\x01\0\0\0\0\0\0");
    let sums = Answer::Amounts {
        came: 1_000_000,
        left: 400_000,
    };
    check_answer(
        &rt,
        sums,
        b"\x02\x40\x42\x0f\0\0\0\0\0\x80\x1a\x06\0\0\0\0\0",
    );
}

// So many bookings have no room in so many bytes, and nothing is changed.
fn no_room(rt: &impl Abort, count: u64, room: usize)
    requires { room ≤ 66 }
{
    let mut out = [0xff; 66];
    assert_eq!(rt;
        write_answer(&mut out[0..room], Answer::Lines { count }),
        None
    );
    assert_eq!(rt; out, [0xff; 66]);
}

#[test]
fn a_statement(rt: HostRuntime) {
    no_room(&rt, 0, 8);
    no_room(&rt, 1, 64);
    no_room(&rt, 2, 66);
    no_room(&rt, u64::MAX, 66);
    let mut out = [0xff; 66];
    assert_eq!(rt; write_answer(&mut out, Answer::Lines { count: 1 }), Some(9));
    let booking = Booking {
        on: 60,
        value: 59,
        from: 1,
        to: 2,
        amount: 1800,
        kind: Kind::Interest,
        back: Some(255),
    };
    assert_eq!(rt; write_booking(&mut out, 9, booking), 65);
    assert_eq!(rt; &out[0..9], b"\x03\x01\0\0\0\0\0\0\0".as_slice());
    assert_eq!(rt;
        &out[9..25],
        b"\x3c\0\0\0\0\0\0\0\x3b\0\0\0\0\0\0\0".as_slice()
    );
    assert_eq!(rt;
        &out[25..41],
        b"\x01\0\0\0\0\0\0\0\x02\0\0\0\0\0\0\0".as_slice()
    );
    assert_eq!(rt;
        &out[41..57],
        b"\x08\x07\0\0\0\0\0\0\x01\0\0\0\0\0\0\0".as_slice()
    );
    assert_eq!(rt; &out[57..66], b"\0\x01\0\0\0\0\0\0\xff".as_slice());
}

#[test]
fn bytes_that_suffice(rt: HostRuntime) {
    assert_eq!(rt; most_answer(0), 17);
    assert_eq!(rt; most_answer(1), 65);
    assert_eq!(rt; most_answer(1_000_000), 56_000_009);
}
