// A booking by value, with its kind and its mark, and the numbers that stand for these.
//
// | kind | number | counts as an order | can be taken back |
// |---|---|---|---|
// | order | 0 | yes | yes |
// | interest | 1 | no | no |
ghost use Rattle.std.specs.Prelude.{◌≡◌, ◌+◌, ◌<◌, ◌≤◌, Some, None};
ghost use Rattle.bank.specs.Builders.{goes_back};
ghost use Rattle.wire.specs.Booked.{HasNumber, kind_number, mark};

// What a booking was made for.
#[derive(Clone, Copy, Debug, PartialEq, Eq)]
pub enum Kind {
    Order,
    Interest,
}

impl Kind {
    // Can a booking of this kind be taken back?
    pub fn goes_back(self) -> bool
        ensures { result ≡ goes_back (kind_number self) }
    {
        self == Kind::Order
    }
}

// The number that stands for a kind.
impl From<Kind> for u32 {
    ghost from_gives = { λ kind n. n ≡ kind_number kind };

    fn from(kind: Kind) -> u32 {
        kind as u32
    }
}

// A number that stands for no kind.
#[derive(Clone, Copy, Debug, PartialEq, Eq)]
pub struct UnknownKind(pub u32);

// The kind that a number stands for.
impl TryFrom<u32> for Kind {
    type Error = UnknownKind;

    ghost try_from_gives = { HasNumber };

    fn try_from(n: u32) -> Result<Self, UnknownKind> {
        match n {
            0 => Ok(Kind::Order),
            1 => Ok(Kind::Interest),
            _ => Err(UnknownKind(n)),
        }
    }
}

// An amount of cents that went from one account to another: booked on a day, of a value day, and taken back on a day, or not.
#[derive(Clone, Copy, Debug, PartialEq, Eq)]
pub struct Booking {
    pub on: u32,
    pub value: u32,
    pub from: u32,
    pub to: u32,
    pub amount: u64,
    pub kind: Kind,
    pub back: Option<u32>,
}

// The number that stands for a mark: 0 where a booking was not taken back, or the day after the one on which it was.
// No `From` here or below: both of its types would be the library's.
pub fn mark_number(back: Option<u32>) -> u64
    ensures { result ≡ mark back }
{
    back.map_or(0, |day| day as u64 + 1)
}

// The mark that a number stands for.
pub fn mark_from(n: u32) -> Option<u32>
    ensures { mark result ≡ n }
{
    n.checked_sub(1)
}
