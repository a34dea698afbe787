// Each refusal, and the last call before it that is taken.
use crate::rows::*;
use desk::opening;

// The most cents of an order, of a limit, and of all orders to one account.
const MOST: u64 = 100_000_000_000;

const FIELDS_AND_ACCOUNTS: [Row; 24] = [
    (Ask::Open, [MOST + 1, 0, 0, 0], [0, 2, 0]),
    (Ask::Open, [u64::MAX, 0, 0, 0], [0, 2, 0]),
    (Ask::Open, [MOST, 0, 0, 0], [1, 2, 0]),
    (Ask::Move, [0, 0, 3, 1], [0, 4, 2]),
    (Ask::Open, [0, 0, 0, 0], [1, 3, 0]),
    (Ask::Open, [0, 0, 0, 0], [0, 10, 0]),
    (Ask::Move, [0, 0, 2, 0], [0, 2, 3]),
    (Ask::Move, [0, 9, 9, 0], [0, 2, 3]),
    (Ask::Move, [0, 0, 2, 1], [1, 0, 0]),
    (Ask::Move, [0, 0, 2, MOST + 1], [0, 2, 3]),
    (Ask::Move, [0, 0, 3, MOST], [1, 1, 0]),
    (Ask::Move, [0, 4, 4, 1], [0, 4, 1]),
    (Ask::Move, [0, u64::MAX, 2, 1], [0, 4, 1]),
    (Ask::Move, [0, 3, 4, 1], [0, 4, 2]),
    (Ask::Move, [0, 3, u64::MAX, 1], [0, 4, 2]),
    (Ask::Move, [0, 3, 3, MOST], [0, 5, 2]),
    (Ask::Move, [0, 0, 0, 1], [0, 5, 2]),
    (Ask::Balance, [4, 0, 0, 0], [0, 4, 0]),
    (Ask::Balance, [u64::MAX, 0, 1, 0], [0, 4, 0]),
    (Ask::Balance, [3, 0, 1, 0], [0, 9, 2]),
    (Ask::Balance, [3, 0, u64::MAX, 0], [0, 9, 2]),
    (Ask::Balance, [3, u64::MAX, 0, 0], [2, MOST, 0]),
    (Ask::Taken, [0; 4], [1, 4, 0]),
    (Ask::Sums, [0; 4], [2, MOST + 1, MOST + 1]),
];

#[test]
fn fields_and_accounts(rt: HostRuntime) {
    run(&rt, limits(4, 3, 8), &FIELDS_AND_ACCOUNTS);
}

const AMOUNTS_AND_ROOM: [Row; 17] = [
    (Ask::Open, [0, 0, 0, 0], [1, 2, 0]),
    (Ask::Open, [5_000, 0, 0, 0], [1, 3, 0]),
    (Ask::Open, [0, 0, 0, 0], [0, 10, 0]),
    (Ask::Move, [0, 2, 3, 1], [0, 7, 1]),
    (Ask::Move, [0, 0, 2, MOST - 1], [1, 0, 0]),
    (Ask::Move, [0, 0, 2, 2], [0, 10, 0]),
    (Ask::Move, [0, 0, 2, 1], [1, 1, 0]),
    (Ask::Move, [0, 0, 2, 1], [0, 10, 0]),
    (Ask::Move, [0, 1, 3, MOST], [1, 2, 0]),
    (Ask::Move, [0, 2, 1, MOST], [1, 3, 0]),
    (Ask::Move, [0, 2, 0, 1], [0, 7, 1]),
    (Ask::Move, [0, 3, 0, MOST], [1, 4, 0]),
    (Ask::Move, [0, 3, 2, 5_001], [0, 7, 1]),
    (Ask::Move, [0, 3, 1, 5_000], [0, 10, 0]),
    (Ask::Balance, [0, 0, 0, 0], [2, MOST, MOST]),
    (Ask::Balance, [1, 0, 0, 0], [2, MOST, MOST]),
    (Ask::Balance, [3, 0, 0, 0], [2, MOST, MOST]),
];

#[test]
fn amounts_and_room(rt: HostRuntime) {
    run(&rt, limits(5, 2, 6), &AMOUNTS_AND_ROOM);
}

const LIMITS_USED_UP: [Row; 13] = [
    (Ask::Open, [5_000, 0, 0, 0], [1, 2, 0]),
    (Ask::Open, [0, 0, 0, 0], [1, 3, 0]),
    (Ask::Open, [0, 0, 0, 0], [0, 10, 0]),
    (Ask::Move, [0, 2, 3, 5_001], [0, 7, 1]),
    (Ask::Move, [0, 2, 3, 5_000], [1, 0, 0]),
    (Ask::Move, [0, 0, 3, MOST - 5_000], [1, 1, 0]),
    (Ask::Move, [0, 0, 2, MOST], [1, 2, 0]),
    (Ask::Move, [0, 0, 1, MOST], [1, 3, 0]),
    (Ask::Move, [0, 0, 2, 1], [0, 10, 0]),
    (Ask::Move, [0, 3, 0, 1], [0, 10, 0]),
    (Ask::Move, [0, 3, 0, MOST], [0, 10, 0]),
    (Ask::Balance, [0, 0, 0, 0], [2, 0, 3 * MOST - 5_000]),
    (Ask::Taken, [0; 4], [1, 6, 0]),
];

#[test]
fn limits_used_up(rt: HostRuntime) {
    run(&rt, limits(4, 3, 4), &LIMITS_USED_UP);
}

const LATER_STAGES: [Row; 11] = [
    (Ask::Open, [0, 0, 0, 0], [1, 2, 0]),
    (Ask::Move, [0, 0, 2, 7], [1, 0, 0]),
    (Ask::Open, [0, 1, 0, 0], [0, 1, 0]),
    (Ask::Rate, [2, 0, 0, 0], [0, 1, 0]),
    (Ask::Move, [1, 0, 2, 7], [0, 1, 0]),
    (Ask::TakeBack, [0; 4], [0, 1, 0]),
    (Ask::DayEnds, [0; 4], [0, 1, 0]),
    (Ask::Statement, [2, 0, 0, 0], [0, 1, 0]),
    (Ask::Taken, [0; 4], [1, 2, 0]),
    (Ask::Balance, [2, 0, 0, 0], [2, 7, 0]),
    (Ask::Sums, [0; 4], [2, 7, 7]),
];

#[test]
fn later_stages(rt: HostRuntime) {
    run(&rt, limits(4, 3, 4), &LATER_STAGES);
}

// Is a book opened with these limits in 36 cells of 8 bytes and 60 of 4?
fn opens(accounts: u32, rates: u32, bookings: u32) -> Option<u64> {
    let mut cents = [0u64; 36];
    let mut numbers = [0u32; 60];
    match opening::open(limits(accounts, rates, bookings), &mut cents, &mut numbers) {
        Ok(_) => None,
        Err(refused) => Some(refused.misfit.place()),
    }
}

// Limits of accounts, rates and bookings, and the place at which they are refused, if they are.
const OPENED: [(u32, u32, u32, Option<u64>); 11] = [
    (4, 4, 4, None),
    (5, 4, 4, None),
    (5, 5, 4, Some(0)),
    (6, 0, 0, None),
    (6, 0, 1, Some(0)),
    (1, 0, 0, Some(2)),
    (2, 0, 0, None),
    (4_097, 0, 0, Some(2)),
    (4_096, 0, 0, Some(0)),
    (2, 16_385, 0, Some(2)),
    (2, 0, 1_000_001, Some(2)),
];

#[test]
fn opened_books(rt: HostRuntime) {
    for row in &OPENED {
        let (accounts, rates, bookings, place) = *row;
        assert_eq!(rt; opens(accounts, rates, bookings), place);
    }
}
