// A session's life on the simulated device: calls are carried out until a budget of acts is used up; then power is lost.
#![tactic(auto)]

ghost use Rattle.std.specs.Prelude.{◌≡◌, ◌-◌, ◌*◌, ◌/◌, ◌<◌, ◌≤◌, true, [], length, take};
ghost use Rattle.device.specs.Device.{acts};
ghost use Rattle.bank.specs.Calls.{Limits as Bounds};
ghost use Rattle.bank.specs.Promise.{room as blocks_for, allowed, all_readable};
ghost use Rattle.columns.specs.Sizes.{limits_of};
ghost use Rattle.model.specs.Core.{IsTheFirstCoreBy, ThroughEveryLife};
ghost use Rattle.model.specs.First.{first_call, first_program, FirstReading};
ghost use Rattle.model.specs.Flushes.{FirstFlushesExact};
ghost use Rattle.ledger.specs.Meaning.{limits};
ghost use Rattle.sim.specs.Sims.{room};
ghost use Rattle.session.specs.Session.{left, memory, Same};
ghost use Rattle.life.specs.Heard.{rows_read, free_in};
ghost use Rattle.life.specs.Life.{world, after_acts, space, Acted, Fits, FitsOn, Stays, has_room, Ended};

use blocks::{BLOCK, blocks_in};
use columns::limits::Limits;
use heard::{Heard, Listener, can_hear, first};
use ledger::opening::Misfit;
use lent::Lent;
use session::lent::Lent as Memory;
use session::opening::{blocks_needed, open, recover};
use session::{Next, Session};
use sim::Disk;

pub mod heard;
pub mod lent;

// Does the next act of a session, if there is one. Session, disk and listener are three values: in one struct, their lender would not learn what they hold in the end.
fn act(session: &mut Session, disk: &mut Disk, listener: &mut Listener) -> bool
    requires { Fits 0 (space disk.old listener.old) (left session.old) }
    ensures acted { Acted result (left session.old) (left session.new) (world disk.old listener.old) (world disk.new listener.new) }
    ensures same { Same session.old session.new }
    ensures stays { Stays disk.old disk.new listener.old listener.new }
    ensures fits { FitsOn (space disk.old listener.old) (left session.old) (space disk.new listener.new) (left session.new) }
{
    match session.next_act() {
        Next::Write(k) => {
            let _ = disk.write(k, session.block());
        }
        Next::Flush => disk.flush(),
        Next::Say(n) => listener.hear(first(session.answer_bytes(), n)),
        Next::Done => return false,
    }
    true
}

// Does what is to be done, as far as the budget of acts goes, and says how much of it is left.
fn finish(session: &mut Session, disk: &mut Disk, listener: &mut Listener, budget: u64) -> u64
    requires { Fits 0 (space disk.old listener.old) (left session.old) }
    ensures left { result ≡ budget - length (left session.old) }
    ensures world { world disk.new listener.new ≡ after_acts (world disk.old listener.old) (take budget (left session.old)) }
    ensures same { Same session.old session.new }
    ensures stays { Stays disk.old disk.new listener.old listener.new }
    ensures rests { 0 < result → FitsOn (space disk.old listener.old) (left session.old) (space disk.new listener.new) [] }
{
    let mut left = budget;
    while left > 0 && act(session, disk, listener) {
        left -= 1;
    }
    left
}

// Carries out calls, one after another, as far as the budget of acts goes.
fn live(
    session: &mut Session,
    disk: &mut Disk,
    listener: &mut Listener,
    calls: &[&[u8]],
    budget: u64,
)
    requires device { blocks_for (limits session.old.book.ledger) ≤ length disk.old.image.now / 512 }
    requires rests { disk.old.count ≡ 0 }
    requires room { 0 < room disk.old }
    requires free { 17 * length calls.now ≤ free_in listener.old.said.now listener.old.heard }
    ensures world { world disk.new listener.new ≡ after_acts (world disk.old listener.old) (take budget (acts (first_program (limits session.old.book.ledger)) (memory session.old) (rows_read calls.now))) }
    ensures stays { Stays disk.old disk.new listener.old listener.new }
{
    let mut left = budget;
    for row in calls {
        if left == 0 {
            return;
        }
        session.call(*row);
        left = finish(session, disk, listener, left);
    }
}

// Is there room for a write that is not safe yet, and for the answers to all calls?
fn is_room(places: &[u64], blocks: &[u8], said: &[u8], calls: &[&[u8]]) -> bool
    ensures room { result ≡ has_room (length places.now) (length blocks.now) (length said.now) (length calls.now) }
    ensures readable { result ≡ true → all_readable (rows_read calls.now) ≡ true }
{
    !places.is_empty() && blocks.len() >= BLOCK && can_hear(said, calls)
}

// A whole life: opens the book that the image holds, carries out calls until the budget of acts is used up, and loses power, so that of the unflushed writes the image
// has what the row says. The answers stand in `said`. Where something does not fit, what that is.
#[tactic(auto, using(model::proofs::First::first_core_by, model::proofs::First::first_lives, model::proofs::Flushes::first_flushes_exact))]
pub fn life(
    limits: Limits,
    lent: Lent,
    image: &mut [u8],
    said: &mut [u8],
    calls: &[&[u8]],
    budget: u64,
    row: &[u64],
) -> Result<Heard, Misfit>
    ensures ended { Ended (limits_of limits) lent.entry calls.now budget row.now image.old said.old image.new said.new result }
    ensures core { IsTheFirstCoreBy first_program FirstReading }
    ensures lives { (l : Bounds) → allowed l ≡ true → ThroughEveryLife l (first_program l) first_call }
    ensures flushes { (l : Bounds) → FirstFlushesExact l }
{
    let Lent {
        cents,
        numbers,
        block,
        bytes,
        places,
        blocks,
    } = lent;
    let memory = Memory {
        cents,
        numbers,
        block,
        bytes,
    };
    // a match in place of `map_err`, as in `store`: there the borrow check had no rule for a closure that takes what was refused, with its lent memory
    let opening = match open(limits, memory) {
        Ok(opening) => opening,
        Err(refused) => return Err(refused.misfit),
    };
    if !is_room(places, blocks, said, calls) {
        return Err(Misfit::Memory);
    }
    if blocks_in(image) < blocks_needed(limits) {
        return Err(Misfit::Device);
    }
    let Some(mut session) = recover(opening, image) else {
        return Err(Misfit::Device);
    };
    let mut disk = Disk::new(image, places, blocks);
    let mut listener = Listener::new(said);
    live(&mut session, &mut disk, &mut listener, calls, budget);
    disk.cut(row);
    Ok(listener.heard())
}
