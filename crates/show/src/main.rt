// show DEVICE: prints the book that a file of blocks holds, a line for each account with its rates, and one for each booking.
//
// | line | numbers |
// |---|---|
// | account | its number, its limit, and for each of its rates the day since which it holds and the rate |
// | booking | its number, booked on, value day, from, to, amount, kind, and 0 or the day after it was taken back |
#![tactic(auto)]

ghost use Rattle.ledger.specs.Meaning.{bank};
ghost use Rattle.std.specs.Prelude.{◌<◌, length};

use anyhow::anyhow;
use ledger::Ledger;
use ledger::opening::Misfit;
use std::env;
use store::memory::Memory;
use store::{LIMITS, Store, open_book};
use wire::booking::{Booking, mark_number};

// Prints an account and its rates, which the book hands out by number.
fn show_account(rt: &HostRuntime, book: &Ledger, account: u32) -> anyhow::Result<()>
    requires { account < length (bank book.now).accounts }
{
    let limit = book.limit(account);
    print!(rt; "account {account} {limit}")?;
    for i in 0..book.rate_count() {
        let rate = book.rate(i);
        if rate.account == account {
            let since = rate.since;
            let rate = rate.rate;
            print!(rt; " {since} {rate}")?;
        }
    }
    println!(rt; "")?;
    Ok(())
}

// Prints a booking.
fn show_booking(rt: &HostRuntime, number: usize, b: Booking) -> anyhow::Result<()> {
    let Booking {
        on,
        value,
        from,
        to,
        amount,
        kind,
        back,
    } = b;
    let kind = u32::from(kind);
    let back = mark_number(back);
    println!(rt; "booking {number} {on} {value} {from} {to} {amount} {kind} {back}")?;
    Ok(())
}

// Prints all accounts, then all bookings, which the book hands out by number.
fn show_book(rt: &HostRuntime, book: &Ledger) -> anyhow::Result<()> {
    for number in 0..book.account_count() {
        if let Some(account) = book.account(number as u64) {
            show_account(rt, book, account)?;
        }
    }
    for number in 0..book.booking_count() {
        show_booking(rt, number, book.booking(number))?;
    }
    Ok(())
}

// Opens the book of a device, and shows it.
fn show(rt: &HostRuntime, device: &str) -> anyhow::Result<()> {
    let mut store = Store::look(rt, device)?;
    let mut memory = Memory::new(rt.alloc(), LIMITS)?;
    match open_book(&mut store, &mut memory) {
        Ok(session) => show_book(rt, session.book()),
        Err(Misfit::Device) => Err(anyhow!("the file holds no book with these limits")),
        Err(_) => Err(anyhow!("the book cannot be opened")),
    }
}

fn run(rt: &HostRuntime) -> anyhow::Result<()> {
    let mut words = env::args(rt)?;
    let _program = words.next();
    let (Some(device), None) = (words.next(), words.next()) else {
        return Err(anyhow!("usage: show DEVICE"));
    };
    show(rt, device.as_str())
}

fn main(rt: HostRuntime) -> anyhow::Result<()> {
    run(&rt)
}
