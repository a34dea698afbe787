// What the bank is told and asked, and a call as a row of bytes: a byte, and numbers of eight bytes each, low byte first.
//
// | byte | call | numbers |
// |---|---|---|
// | 0 | open | limit, rate |
// | 1 | rate | account, rate |
// | 2 | move | value day, from, to, amount |
// | 3 | take back | booking |
// | 4 | day ends | |
// | 5 | balance | account, value day, day at whose end it is known |
// | 6 | statement | account, first day, last day |
// | 7 | sums | |
// | 8 | taken | |
ghost use Rattle.std.specs.Prelude.{◌≡◌, ◌-◌, ◌<◌, ◌++◌, length, replicate, Ok, Err};
ghost use Rattle.wire.specs.Bytes.{Wrote};
ghost use Rattle.wire.specs.Format.{AlwaysReadable, Examples, OneRow, OwnRow, ReadsBack, ReadsFirst, begins, call_fields, call_number, call_of_lem, fails, first_call, read_call_lem, written_call};
ghost use Rattle.wire.specs.Meaning.{meant, received};

use crate::bytes::{eights, numbers_at, write_form};

// How many numbers follow the byte that a call begins with.
const FIELDS: [usize; 9] = [2, 2, 4, 1, 0, 3, 3, 0, 0];

// A call, by its numbers.
#[derive(Clone, Copy, Debug, PartialEq, Eq)]
pub enum Call {
    Open {
        limit: u64,
        rate: u64,
    },
    Rate {
        account: u64,
        rate: u64,
    },
    Move {
        value: u64,
        from: u64,
        to: u64,
        amount: u64,
    },
    TakeBack {
        booking: u64,
    },
    DayEnds,
    Balance {
        account: u64,
        value: u64,
        known: u64,
    },
    Statement {
        account: u64,
        first: u64,
        last: u64,
    },
    Sums,
    Taken,
}

impl Call {
    // The byte that a call begins with. No cast gives it: the cases have numbers.
    pub(crate) fn number(self) -> u8
        ensures { result ≡ call_number (meant self) }
    {
        match self {
            Call::Open { .. } => 0,
            Call::Rate { .. } => 1,
            Call::Move { .. } => 2,
            Call::TakeBack { .. } => 3,
            Call::DayEnds => 4,
            Call::Balance { .. } => 5,
            Call::Statement { .. } => 6,
            Call::Sums => 7,
            Call::Taken => 8,
        }
    }

    // The numbers that follow it, and zeros behind them.
    // An array, since nothing is allocated; how many they are `FIELDS` says by the byte alone, since a reader has no call yet.
    pub(crate) fn fields(self) -> [u64; 4]
        ensures { result ≡ call_fields (meant self) ++ replicate (4 - length (call_fields (meant self))) 0 }
    {
        match self {
            Call::Open { limit, rate } => [limit, rate, 0, 0],
            Call::Rate { account, rate } => [account, rate, 0, 0],
            Call::Move {
                value,
                from,
                to,
                amount,
            } => [value, from, to, amount],
            Call::TakeBack { booking } => [booking, 0, 0, 0],
            Call::Balance {
                account,
                value,
                known,
            } => [account, value, known, 0],
            Call::Statement {
                account,
                first,
                last,
            } => [account, first, last, 0],
            Call::DayEnds | Call::Sums | Call::Taken => [0; 4],
        }
    }

    // The call that begins with a byte and has these numbers.
    pub(crate) fn from_fields(number: u8, fields: &[u64; 8]) -> Call
        requires { number < 9 }
        ensures { meant result ≡ call_of_lem number fields.now }
    {
        match number {
            0 => Call::Open {
                limit: fields[0],
                rate: fields[1],
            },
            1 => Call::Rate {
                account: fields[0],
                rate: fields[1],
            },
            2 => Call::Move {
                value: fields[0],
                from: fields[1],
                to: fields[2],
                amount: fields[3],
            },
            3 => Call::TakeBack { booking: fields[0] },
            4 => Call::DayEnds,
            5 => Call::Balance {
                account: fields[0],
                value: fields[1],
                known: fields[2],
            },
            6 => Call::Statement {
                account: fields[0],
                first: fields[1],
                last: fields[2],
            },
            7 => Call::Sums,
            _ => Call::Taken,
        }
    }
}

// The call that bytes begin with and the bytes behind it, or the place of the first byte that does not fit: a place, and no code.
pub fn read_first(bytes: &[u8]) -> Result<(Call, &[u8]), usize>
    ensures { elim result [ Ok p ↦ first_call bytes.now ≡ begins (meant p.0) p.1.now | Err k ↦ first_call bytes.now ≡ fails k ] }
{
    let Some((&number, rest)) = bytes.split_first() else {
        return Err(0);
    };
    let Some(&count) = FIELDS.get(number as usize) else {
        return Err(0);
    };
    if rest.len() < 8 * count {
        return Err(bytes.len());
    }
    let fields = numbers_at(rest, 0, eights(count));
    Ok((Call::from_fields(number, &fields), &rest[8 * count..]))
}

// The call that a row of bytes is, or the first byte that does not fit.
pub fn read_call(bytes: &[u8]) -> Result<Call, usize>
    ensures { received result ≡ read_call_lem bytes.now }
{
    let (call, rest) = read_first(bytes)?;
    if !rest.is_empty() {
        return Err(bytes.len() - rest.len());
    }
    Ok(call)
}

// Writes the row of a call if there is room, and says how many bytes it has.
pub fn write_call(out: &mut [u8], call: Call) -> Option<usize>
    ensures { Wrote out.old (written_call (meant call)) out.new result }
{
    let number = call.number();
    write_form(out, number, &call.fields()[0..FIELDS[number as usize]])
}

// Theorems of the format: what was written is read, and a row that is read as a call is its own.
pub fn calls_stand() -> u8
    ensures first { ReadsFirst }
    ensures back { ReadsBack }
    ensures own { OwnRow }
    ensures one { OneRow }
    ensures readable { AlwaysReadable }
    ensures examples { Examples }
{
    0
}
