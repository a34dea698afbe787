// The worked book: its first four rows.
use crate::rows::*;

const FIRST_ROWS: [Row; 6] = [
    (Ask::Open, [0, 0, 0, 0], [1, 2, 0]),
    (Ask::Open, [5_000, 0, 0, 0], [1, 3, 0]),
    (Ask::Move, [0, 0, 2, 1_000_000], [1, 0, 0]),
    (Ask::Move, [0, 2, 3, 400_000], [1, 1, 0]),
    (Ask::Move, [0, 2, 3, 600_001], [0, 7, 1]),
    (Ask::Balance, [2, 0, 0, 0], [2, 1_000_000, 400_000]),
];

#[test]
fn the_first_rows(rt: HostRuntime) {
    run(&rt, limits(4, 2, 4), &FIRST_ROWS);
}
