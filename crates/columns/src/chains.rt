// Chains through the bookings, newest first: every booking is in that of the account to which it goes and in that of the account from which it comes.
ghost use Rattle.std.specs.Prelude.{◌≡◌, ℕ, ◌+◌, ◌*◌, ◌<◌, ◌≤◌, length, slice_index};
ghost use Rattle.bank.specs.Book.{Booking as Entry};
ghost use Rattle.columns.specs.Links.{link_of, Linkable, Chained, NewChain, NewChains, Begun, Linked, BegunBoth, LinkedBoth};
ghost use Rattle.columns.specs.declared.chains.Chain.{Chain};
ghost use Rattle.columns.specs.declared.chains.Chains.{Chains};
ghost use Rattle.wire.specs.Booked.{booked};

use wire::booking::Booking;

// The chains of one side. Cells hold one more than a booking's number, or 0 where a chain ends.
#[derive(Drop)]
pub struct Chain<'a> {
    // by account: its newest booking
    newest: &'a mut [u32],
    // by booking: the one before it in the same chain
    before: &'a mut [u32],
}

// The chains of both sides.
#[derive(Drop)]
pub struct Chains<'a> {
    // by the account to which an amount goes
    incoming: Chain<'a>,
    // by the account from which it comes
    outgoing: Chain<'a>,
}

// A side of a booking: the account to which it goes, or that from which it comes.
pub trait Side {
    ghost party_of: { Entry → ℕ };

    ghost chain_of: { Chains → Chain };

    // The account on this side of a booking.
    fn party(booking: Booking) -> u32
        ensures { result ≡ party_of (booked booking) };

    // The chains by this side's accounts.
    fn chain<'c, 'm>(chains: &'c Chains<'m>) -> &'c Chain<'m>
        ensures { result.now ≡ chain_of chains.now };

    // where both chains have room, this one has
    ghost has_room: { (c : Chains) (m b : ℕ) → Linkable c m b → (m ≤ length (chain_of c).newest.now) × (b ≤ length (chain_of c).before.now) };

    // where both chains lead through the bookings, this one does
    ghost is_chained: { (c : Chains) (f : ℕ → Entry) (n m : ℕ) → Chained c.incoming (λ i. (f i).to) n m → Chained c.outgoing (λ i. (f i).from) n m → Chained (chain_of c) (λ i. party_of (f i)) n m };
}

// The side to which an amount goes.
pub struct Incoming;

impl Side for Incoming {
    ghost party_of = { λ b. b.to };

    ghost chain_of = { λ c. c.incoming };

    ghost has_room = { λ c m b h. (h.heads_in, h.links_in) };

    ghost is_chained = { λ c f n m i o. i };

    fn party(booking: Booking) -> u32 {
        booking.to
    }

    fn chain<'c, 'm>(chains: &'c Chains<'m>) -> &'c Chain<'m> {
        &chains.incoming
    }
}

// The side from which it comes.
pub struct Outgoing;

impl Side for Outgoing {
    ghost party_of = { λ b. b.from };

    ghost chain_of = { λ c. c.outgoing };

    ghost has_room = { λ c m b h. (h.heads_out, h.links_out) };

    ghost is_chained = { λ c f n m i o. o };

    fn party(booking: Booking) -> u32 {
        booking.from
    }

    fn chain<'c, 'm>(chains: &'c Chains<'m>) -> &'c Chain<'m> {
        &chains.outgoing
    }
}

// The booking that a cell links to. No `From`: both types are the library's.
fn link_in(cell: u32) -> Option<usize>
    ensures { link_of result ≡ cell }
{
    (cell as usize).checked_sub(1)
}

impl<'a> Chain<'a> {
    // Cuts a slice into heads and links, with the empty chains of the first two accounts in them.
    fn lay(numbers: &'a mut [u32], accounts: usize, bookings: usize) -> Chain<'a>
        requires two { 2 ≤ accounts }
        requires numbers { accounts + bookings ≤ length numbers.old }
        ensures { NewChain result accounts bookings }
    {
        let (newest, before) = numbers.split_at_mut(accounts);
        newest[0] = 0;
        newest[1] = 0;
        Chain { newest, before }
    }
}

impl Chain<'_> {
    // The newest booking of an account.
    pub fn newest(&self, account: u32) -> Option<usize>
        requires { account < length self.now.newest.now }
        ensures { link_of result ≡ slice_index self.now.newest.now account }
    {
        link_in(self.newest[account as usize])
    }

    // The booking of the same account before booking `i`.
    pub fn before(&self, i: usize) -> Option<usize>
        requires { i < length self.now.before.now }
        ensures { link_of result ≡ slice_index self.now.before.now i }
    {
        link_in(self.before[i])
    }

    // Begins the chain of account `a`.
    fn begin(&mut self, a: usize)
        requires { a < length self.old.newest.now }
        ensures { Begun self.old self.new a }
    {
        self.newest[a] = 0;
    }

    // Puts booking `i` at the head of an account's chain.
    fn link(&mut self, account: u32, i: usize)
        requires account { account < length self.old.newest.now }
        requires booking { i < length self.old.before.now }
        requires small { i < 1000000 }
        ensures { Linked self.old self.new account i }
    {
        self.before[i] = self.newest[account as usize];
        self.newest[account as usize] = i as u32 + 1;
    }
}

impl<'a> Chains<'a> {
    // Cuts a slice into both sides.
    pub fn lay(numbers: &'a mut [u32], accounts: usize, bookings: usize) -> Chains<'a>
        requires two { 2 ≤ accounts }
        requires few { (accounts ≤ 4096) × (bookings ≤ 1000000) }
        requires numbers { 2 * (accounts + bookings) ≤ length numbers.old }
        ensures { NewChains result accounts bookings }
    {
        let (incoming, outgoing) = numbers.split_at_mut(accounts + bookings);
        Chains {
            incoming: Chain::lay(incoming, accounts, bookings),
            outgoing: Chain::lay(outgoing, accounts, bookings),
        }
    }
}

impl Chains<'_> {
    // Begins the chains of account `a`.
    pub fn begin(&mut self, a: usize)
        requires { (b : ℕ) × Linkable self.old (a + 1) b }
        ensures { BegunBoth self.old self.new a }
    {
        self.incoming.begin(a);
        self.outgoing.begin(a);
    }

    // Puts a booking under number `i` at the head of its two chains.
    pub fn link(&mut self, b: Booking, i: usize)
        requires room { (m : ℕ) × (Linkable self.old m (i + 1) × (b.from < m) × (b.to < m)) }
        requires small { i < 1000000 }
        ensures { LinkedBoth self.old self.new (booked b) i }
    {
        self.incoming.link(b.to, i);
        self.outgoing.link(b.from, i);
    }
}
