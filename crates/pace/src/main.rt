// pace ACCOUNTS BOOKINGS: opens a book of that size in memory, fills it through a session, and says how long each phase took.
#![tactic(auto)]

ghost use Rattle.std.specs.Prelude.{IfSome};
ghost use Rattle.model.specs.Whole.{ReachedRegister};
ghost use Rattle.ledger.specs.Meaning.{limits, register};
ghost use Rattle.session.specs.Opening.{Opens};

use anyhow::anyhow;
use blocks::BLOCK;
use columns::limits::Limits;
use disk::Device;
use phase::{LIMIT, PAID_IN, QUESTIONS, Size, TOO_MUCH, balance, order};
use session::opening::{Opening, open};
use session::{Next, Session};
use std::env;
use std::time::{Duration, Instant};
use store::memory::Memory;
use wire::call::{Call, write_call};

mod disk;
mod phase;

const USAGE: &str =
    "usage: pace ACCOUNTS BOOKINGS, with 4 to 4096 accounts and at most 1000000 bookings";

// The longest row of a call.
const ROW: usize = 33;

// A session, and the device that its acts are done on.
#[derive(Drop)]
struct Runner<'a> {
    session: Session<'a>,
    device: Device,
}

impl Runner<'_> {
    // Does all that the session has left to do.
    fn perform(&mut self) {
        loop {
            match self.session.next_act() {
                Next::Write(_) => self.device.write(self.session.block()),
                Next::Flush => self.device.flush(),
                Next::Say(count) => self.device.say(self.session.answer_bytes(), count),
                Next::Done => return,
            }
        }
    }

    // Makes the row of a call, and has the session take it.
    fn ask(&mut self, call: Call) {
        let mut row = [0; ROW];
        let Some(end) = write_call(&mut row, call) else {
            unreachable!()
        };
        self.session.call(&row[..end]);
        self.perform();
    }

    // All calls of a phase.
    fn play<F: Fn(u32) -> Call>(&mut self, count: u32, call: F)
        requires { F.IsAlwaysCallable call }
    {
        for i in 0..count {
            self.ask(call(i));
        }
    }

    // A phase, with what it came to and how long it took.
    fn measure_phase<F: Fn(u32) -> Call>(
        &mut self,
        rt: &HostRuntime,
        title: &str,
        count: u32,
        call: F,
    ) -> anyhow::Result<()>
        requires { F.IsAlwaysCallable call }
    {
        let before = self.device.refusals;
        let start = Instant::now(rt)?;
        self.play(count, &call);
        let time = start.elapsed(rt)?;
        let refused = self.device.refusals.wrapping_sub(before);
        println!(rt; "{title}: {count} calls, {refused} refused")?;
        say_time(rt, title, count, time)
    }

    // All phases, one after another.
    fn measure_all(&mut self, rt: &HostRuntime, size: Size) -> anyhow::Result<()> {
        let accounts = size.opened();
        let opened = accounts as u64;
        let bookings = size.limits.bookings;
        let open = Call::Open {
            limit: LIMIT,
            rate: 0,
        };
        self.measure_phase(rt, "accounts opened", accounts, |_| open)?;
        self.measure_phase(
            rt,
            "moves from the till",
            bookings / 4,
            |i| Call::Move {
                value: 0,
                from: 0,
                to: 2 + i as u64 % opened,
                amount: PAID_IN,
            },
        )?;
        self.measure_phase(
            rt,
            "moves between accounts",
            bookings - bookings / 4,
            |i| order(opened, i, 1 + i as u64 % 100),
        )?;
        self.measure_phase(
            rt,
            "moves of more than there is",
            bookings,
            |i| order(opened, i, TOO_MUCH),
        )?;
        self.measure_phase(
            rt,
            "moves when the book is full",
            bookings,
            |i| order(opened, i, 1 + i as u64 % 100),
        )?;
        self.measure_phase(
            rt,
            "balances of the accounts opened",
            accounts,
            |i| balance(2 + i as u64 % opened),
        )?;
        self.measure_phase(rt, "balances of the till", QUESTIONS, |_| balance(0))?;
        self.measure_phase(rt, "sums", QUESTIONS, |_| Call::Sums)?;
        self.measure_phase(rt, "calls taken", QUESTIONS, |_| Call::Taken)?;
        let writes = self.device.writes;
        let flushes = self.device.flushes;
        let answers = self.device.answers;
        let checksum = self.device.checksum;
        let block = self.device.block_checksum();
        println!(rt; "{writes} writes, {flushes} flushes, {answers} answers")?;
        println!(rt; "checksum of the answers {checksum:016x}, of the last block {block:016x}")?;
        Ok(())
    }
}

// Says how long some steps took, all and each.
fn say_time(rt: &HostRuntime, title: &str, count: u32, time: Duration) -> anyhow::Result<()> {
    let each = time.checked_div(count).unwrap_or(Duration::ZERO);
    let seconds = time.as_secs_f64();
    eprintln!(rt; "{title}: {seconds:.6} s, {each:?} each")?;
    Ok(())
}

// The session of a device whose blocks are all the same; an empty one has zeros. No reader: to be handed a block costs more than to take it.
fn stand<'a>(opening: Opening<'a>, block: &[u8]) -> Option<Session<'a>>
    ensures { Opens opening.entry → IfSome result (λ s. ReachedRegister (limits s.book.ledger) (register s.book.ledger)) }
{
    let mut opening = opening;
    while let Some(_) = opening.next_block() {
        if !opening.take_block(block) {
            return None;
        }
    }
    opening.stand()
}

// Opens the book of an empty device in lent memory, and measures.
fn measure(rt: &HostRuntime, size: Size, memory: &mut Memory) -> anyhow::Result<()> {
    let empty = vec![in rt.alloc(); 0u8; BLOCK]?;
    let start = Instant::now(rt)?;
    let Ok(opening) = open(size.limits, memory.lend()) else {
        return Err(anyhow!(USAGE));
    };
    let Some(session) = stand(opening, &empty) else {
        return Err(anyhow!("an empty device was refused"));
    };
    let time = start.elapsed(rt)?;
    say_time(rt, "opening", 1, time)?;
    let device = Device::new();
    Runner { session, device }.measure_all(rt, size)
}

// The limits that the command line gives; an account that is opened takes a rate.
fn limits_given(rt: &HostRuntime) -> anyhow::Result<Limits> {
    let mut words = env::args(rt)?;
    let _program = words.next();
    let (Some(accounts), Some(bookings), None) = (words.next(), words.next(), words.next()) else {
        return Err(anyhow!(USAGE));
    };
    let (Ok(accounts), Ok(bookings)) = (
        accounts.as_str().parse::<u32>(),
        bookings.as_str().parse::<u32>(),
    ) else {
        return Err(anyhow!(USAGE));
    };
    Ok(Limits {
        accounts,
        rates: accounts,
        bookings,
    })
}

fn run(rt: &HostRuntime) -> anyhow::Result<()> {
    let Some(size) = Size::of(limits_given(rt)?) else {
        return Err(anyhow!(USAGE));
    };
    let mut memory = Memory::new(rt.alloc(), size.limits)?;
    measure(rt, size, &mut memory)
}

fn main(rt: HostRuntime) -> anyhow::Result<()> {
    run(&rt)
}
