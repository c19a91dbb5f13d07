// Why a call is refused: the check that failed first, and the place of what failed it.
ghost use Rattle.std.specs.Prelude.{◌≡◌};
ghost use Rattle.store.specs.Outcome.{number_of};

use std::fmt;

// The checks, by what is wrong. A refused call gives the check's number.
#[derive(Clone, Copy, Debug, PartialEq, Eq)]
pub enum Check {
    // No store is open, or a part or a lent list is too short.
    Unready,
    // A registration that these calls did not make names a category that there is not.
    NoCategory,
    Sizes,
    CategoryRecord,
    DayType,
    Mpan,
    // The meter has no registration in force on the date.
    NotRegistered,
    NoSlot,
    Date,
    // A registration starts no later than the meter's last one.
    StartNotLater,
    // A set is held on or after the start.
    SetHeld,
    NinthRegistration,
    // The records are no whole number of records, or a quality is unknown.
    Record,
    NotRun,
    // A category or period that there is not.
    Range,
    // A registration's field is out of range.
    Fields,
    // Nothing is missing, or the missing periods have no shape.
    NoShape,
    DraftShort,
    Window,
    // No category to net this one with.
    NoPartner,
    Sender,
    Quantity,
    Duration,
    // The minute closes no period.
    EndMinute,
    // The period had a record before.
    SecondRecord,
    DeEnergised,
    Disconnected,
    // An estimate of zero that is not zero.
    ZeroEstimate,
    AboveLimit,
}

impl Check {
    pub fn number(self) -> u64
        ensures { result ≡ number_of self }
    {
        match self {
            Check::Unready => 1,
            Check::NoCategory => 2,
            Check::Sizes => 3,
            Check::CategoryRecord => 4,
            Check::DayType => 5,
            Check::Mpan => 6,
            Check::NotRegistered => 7,
            Check::NoSlot => 8,
            Check::Date => 9,
            Check::StartNotLater => 10,
            Check::SetHeld => 11,
            Check::NinthRegistration => 12,
            Check::Record => 13,
            Check::NotRun => 14,
            Check::Range => 15,
            Check::Fields => 16,
            Check::NoShape => 17,
            Check::DraftShort => 18,
            Check::Window => 19,
            Check::NoPartner => 26,
            Check::Sender => 1001,
            Check::Quantity => 1002,
            Check::Duration => 1004,
            Check::EndMinute => 1005,
            Check::SecondRecord => 1006,
            Check::DeEnergised => 1008,
            Check::Disconnected => 1009,
            Check::ZeroEstimate => 1011,
            Check::AboveLimit => 1012,
        }
    }
}

// The place is the number of the record, window, category or day type that failed; 0 where there is none.
#[derive(Clone, Copy, Debug, PartialEq, Eq)]
pub struct Refusal {
    pub check: Check,
    pub place: u64,
}

impl From<Check> for Refusal {
    ghost from_gives = { λ check refusal. (refusal.check ≡ check) × (refusal.place ≡ 0) };

    fn from(check: Check) -> Refusal {
        Refusal { check, place: 0 }
    }
}

// The number and the place, as the command program prints them.
impl fmt::Display for Refusal {
    fn fmt<W: fmt::Write>(&self, f: &mut fmt::Formatter<W>) -> fmt::Result {
        write!(f, "{} {}", self.check.number(), self.place)
    }
}
