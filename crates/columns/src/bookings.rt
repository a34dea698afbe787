// Bookings in lent memory: a column for each field, booking i in cell i of each.
ghost use Rattle.std.specs.Prelude.{◌≡◌, ℕ, ◌+◌, ◌*◌, ◌^◌, ◌<◌, ◌≤◌, length, slice_index};
ghost use Rattle.wire.specs.Booked.{booked, mark};

use wire::booking::{Booking, Kind, mark_from, mark_number};

// All bookings, by number.
#[derive(Drop)]
pub struct Bookings<'a> {
    on: &'a mut [u32],
    value: &'a mut [u32],
    from: &'a mut [u32],
    to: &'a mut [u32],
    amount: &'a mut [u64],
    kind: &'a mut [u32],
    back: &'a mut [u32],
    count: usize,
    capacity: usize,
    pub ghost within: { count ≤ capacity },
    pub ghost few: { capacity ≤ 1000000 },
    pub ghost on_room: { capacity ≤ length on.now },
    pub ghost value_room: { capacity ≤ length value.now },
    pub ghost from_room: { capacity ≤ length from.now },
    pub ghost to_room: { capacity ≤ length to.now },
    pub ghost amount_room: { capacity ≤ length amount.now },
    pub ghost kind_room: { capacity ≤ length kind.now },
    pub ghost back_room: { capacity ≤ length back.now },
    // no sum of amounts passes 2 ^ 62
    pub ghost small: { (i : ℕ) → i < count → slice_index amount.now i ≤ 4000000000000 },
}

impl<'a> Bookings<'a> {
    ghost use Rattle.columns.specs.Rows.{NewBookings};

    // Cuts two slices into columns, with no bookings in them.
    pub fn lay(amount: &'a mut [u64], numbers: &'a mut [u32], capacity: usize) -> Bookings<'a>
        requires few { capacity ≤ 1000000 }
        requires amounts { capacity ≤ length amount.old }
        requires numbers { 6 * capacity ≤ length numbers.old }
        ensures { NewBookings result capacity }
    {
        let (on, rest) = numbers.split_at_mut(capacity);
        let (value, rest) = rest.split_at_mut(capacity);
        let (from, rest) = rest.split_at_mut(capacity);
        let (to, rest) = rest.split_at_mut(capacity);
        let (kind, back) = rest.split_at_mut(capacity);
        Bookings {
            on,
            value,
            from,
            to,
            amount,
            kind,
            back,
            count: 0,
            capacity,
        }
    }
}

impl Bookings<'_> {
    ghost use Rattle.columns.specs.Rows.{row, rows, booked_days, Appended, Marked};

    // How many there are.
    pub fn count(&self) -> usize
        ensures { result ≡ self.now.count }
    {
        self.count
    }

    // How many there can be.
    pub fn capacity(&self) -> usize
        ensures { result ≡ self.now.capacity }
    {
        self.capacity
    }

    // Booking `i`.
    pub fn get(&self, i: usize) -> Booking
        requires there { i < self.now.count }
        ensures { booked result ≡ row self.now i }
    {
        Booking {
            on: self.on[i],
            value: self.value[i],
            from: self.from[i],
            to: self.to[i],
            amount: self.amount[i],
            kind: Kind::try_from(self.kind[i]).unwrap_or(Kind::Interest),
            back: mark_from(self.back[i]),
        }
    }

    // The days on which they were booked, in order.
    #[tactic(auto, using(crate::proofs::Put::days_are))]
    pub fn booked_days(&self) -> &[u32]
        ensures { result.now ≡ booked_days (rows self.now) }
    {
        &self.on[..self.count]
    }

    // Adds a booking under the next number.
    pub fn append(&mut self, b: Booking)
        requires space { self.old.count < self.old.capacity }
        requires small { b.amount ≤ 4000000000000 }
        requires mark { mark b.back < 2 ^ 32 }
        ensures { Appended self.old self.new (booked b) }
    {
        let i = self.count;
        self.on[i] = b.on;
        self.value[i] = b.value;
        self.from[i] = b.from;
        self.to[i] = b.to;
        self.amount[i] = b.amount;
        self.kind[i] = u32::from(b.kind);
        self.back[i] = mark_number(b.back) as u32;
        self.count = i + 1;
    }

    // Marks booking `i` as taken back on `day`.
    pub fn take_back(&mut self, i: usize, day: u32)
        requires there { i < self.old.count }
        requires day { day + 1 < 2 ^ 32 }
        ensures { Marked self.old self.new i day }
    {
        self.back[i] = day + 1;
    }
}
