// Journal rows: what the bytes of a taken call are, and which bytes hold none.
ghost use Rattle.std.specs.Prelude.{◌≡◌, true};
ghost use Rattle.model.specs.JournalBlock.{stored};
ghost use Rattle.wire.specs.Meaning.{meant};

use std::process::Abort;
use wire::call::Call;
use wire::row::{read_row, write_row};

// The row of a call, between 10 bytes before it and 10 behind that were all ones.
fn written(call: Call) -> [u8; 40]
    requires { stored (meant call) ≡ true }
{
    let mut block = [0xff; 40];
    write_row(&mut block, 10, call);
    block
}

// The bytes around a row are as they were, and the row's are these.
fn check_block(rt: &impl Abort, block: [u8; 40], row: &[u8]) {
    assert_eq!(rt; &block[0..10], &[0xff; 10][0..10]);
    assert_eq!(rt; &block[10..30], row);
    assert_eq!(rt; &block[30..40], &[0xff; 10][0..10]);
}

// Is there a row in bytes that are all the same but for the kind?
fn held(kind: u8, high: u8, others: u8) -> bool {
    let mut block = [others; 30];
    block[7] = kind;
    block[8] = high;
    read_row(&block, 7).is_some()
}

// That each of these calls has a row is computed.
#[tactic(auto, unfolding(bank::specs::Promise::asks, device::specs::Rows::fits_in, model::specs::JournalBlock::call_kind, model::specs::JournalBlock::call_numbers, model::specs::JournalBlock::call_widths))]
#[test]
fn rows_of_taken_calls(rt: HostRuntime) {
    let open = Call::Open {
        limit: 5000,
        rate: 365,
    };
    check_block(
        &rt,
        written(open),
        b"\x01\0\x88\x13\0\0\0\0\0\0\x6d\x01\0\0\0\0\0\0\0\0",
    );
    let order = Call::Move {
        value: 3650,
        from: 4095,
        to: 2,
        amount: 100_000_000_000,
    };
    let block = written(order);
    check_block(
        &rt,
        block,
        b"\x03\0\x42\x0e\xff\x0f\x02\0\0\xe8\x76\x48\x17\0\0\0\0\0\0\0",
    );
    assert_eq!(rt; read_row(&block, 10), Some(order));
    check_block(
        &rt,
        written(Call::TakeBack { booking: 999_999 }),
        b"\x04\0\x3f\x42\x0f\0\0\0\0\0\0\0\0\0\0\0\0\0\0\0",
    );
}

#[test]
fn kinds_of_rows(rt: HostRuntime) {
    for kind in 0..=255u8 {
        let known = 1 <= kind && kind <= 5;
        assert_eq!(rt; held(kind, 0, 0), known);
        assert_eq!(rt; held(kind, 0, 0xff), known);
        assert_eq!(rt; held(kind, 1, 0), false);
    }
}
