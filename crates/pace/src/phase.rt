// The calls of a run: within which limits, how often a question is asked, and which call comes at which turn.
//
// Accounts 0 and 1 are there from the start; the calls are about those from 2 on, which are opened.
ghost use Rattle.std.specs.Prelude.{◌≡◌, ◌≤◌, ◌&&◌, is_some, nat_le};
ghost use Rattle.bank.specs.Promise.{allowed};
ghost use Rattle.columns.specs.Sizes.{limits_of};

use columns::limits::Limits;
use wire::call::Call;

// The limits of a run, with at least two accounts that can be opened.
#[derive(Clone, Copy)]
pub struct Size {
    pub limits: Limits,
    pub ghost two: { 4 ≤ limits.accounts },
}

impl Size {
    // A run with these limits, if they may be given and have two accounts that can be opened.
    pub fn of(limits: Limits) -> Option<Size>
        ensures { is_some result ≡ (nat_le 4 limits.accounts && allowed (limits_of limits)) }
    {
        if limits.accounts < 4 || !limits.are_allowed() {
            return None;
        }
        Some(Size { limits })
    }

    // How many accounts can be opened.
    pub fn opened(self) -> u32
        ensures { 2 ≤ result }
    {
        self.limits.accounts - 2
    }
}

// How often a question that is the same each time is asked.
pub const QUESTIONS: u32 = 100;

// Cents: by how much an account may be below zero, what is paid in at once, and more than any account has.
pub const LIMIT: u64 = 1_000_000;

pub const PAID_IN: u64 = 100_000;

pub const TOO_MUCH: u64 = 100_000_000_000;

// A number that is scattered over all numbers of 64 bits.
fn scattered(i: u32) -> u64 {
    let x = (i as u64)
        .wrapping_add(1)
        .wrapping_mul(0x9E37_79B9_7F4A_7C15);
    x ^ (x >> 29)
}

// An order between two of the opened accounts, which differ.
pub fn order(opened: u64, i: u32, amount: u64) -> Call
    requires few { opened ≤ 4294967295 }
    requires two { 2 ≤ opened }
{
    let x = scattered(i);
    let payer = x % opened;
    let step = 1 + (x >> 32) % (opened - 1);
    let payee = (payer + step) % opened;
    Call::Move {
        value: 0,
        from: 2 + payer,
        to: 2 + payee,
        amount,
    }
}

// A balance by today as known today.
pub fn balance(account: u64) -> Call {
    Call::Balance {
        account,
        value: 0,
        known: 0,
    }
}
