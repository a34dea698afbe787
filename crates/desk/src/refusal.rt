// Why a call is turned away: each case is a number of the refusal list with its place.
//
// | case | number | place |
// |---|---|---|
// | a call of a later stage: it can't be read yet | 1 | 0 |
// | amount: 0, or above 10^11 cents | 2 | 3 |
// | limit above 10^11 cents | 2 | 0 |
// | rate above 2,000 | 2 | 1 |
// | no such account | 4 | its field |
// | from an account to itself | 5 | 2 |
// | value day after today or more than 60 days before it | 6 | 0 |
// | not enough on the account | 7 | 1 |
// | no such booking, or not to be taken back | 8 | 0 |
// | known on a day after today | 9 | 2 |
// | no room | 10 | 0 |
ghost use Rattle.std.specs.Prelude.{◌≡◌, []};
ghost use Rattle.wire.specs.Answered.{answered};
ghost use Rattle.desk.specs.Refusals.{turned_away};

use wire::answer::Answer;

// Why a call is turned away.
#[derive(Clone, Copy, Debug, PartialEq, Eq)]
pub enum Refusal {
    NotYet,
    Amount,
    Limit,
    Rate,
    Account { field: u64 },
    SameAccount,
    ValueDay,
    NotEnough,
    Booking,
    NotYetKnown,
    NoRoom,
}

// The answer that names it.
impl From<Refusal> for Answer {
    ghost from_gives = { λ refusal answer. answered answer [] ≡ turned_away refusal };

    fn from(refusal: Refusal) -> Answer {
        let (reason, place) = match refusal {
            Refusal::NotYet => (1, 0),
            Refusal::Limit => (2, 0),
            Refusal::Rate => (2, 1),
            Refusal::Amount => (2, 3),
            Refusal::Account { field } => (4, field),
            Refusal::SameAccount => (5, 2),
            Refusal::ValueDay => (6, 0),
            Refusal::NotEnough => (7, 1),
            Refusal::Booking => (8, 0),
            Refusal::NotYetKnown => (9, 2),
            Refusal::NoRoom => (10, 0),
        };
        Answer::Refused { reason, place }
    }
}
