// The causes for which a call is turned down, in the order in which they are looked for.
ghost use Rattle.std.specs.Prelude.{◌≡◌, Some};
ghost use Rattle.faults.specs.Causes.{cause_number};
ghost use Rattle.faults.specs.Texts.{cause_text};

use std::fmt;

#[derive(Clone, Copy, PartialEq, Eq, Debug)]
pub enum Cause {
    OpeningOutside = 1,
    NotInTable = 2,
    NotForThisCall = 3,
    UnknownParticipant = 4,
    OutsidePage = 5,
    AmountBeyondLimit = 6,
    DemandOutside = 7,
    NotOpen = 8,
    DayNotAllotted = 9,
    ShareBeyondLimit = 10,
    NoWeight = 11,
    NoFreeLine = 12,
    TooFewPlaces = 13,
}

// The number by which the rules and an answer name it.
impl From<Cause> for u8 {
    ghost from_gives = { λ cause n. n ≡ cause_number cause };

    fn from(cause: Cause) -> u8 {
        cause as u8
    }
}

impl fmt::Display for Cause {
    ghost output = { λ x. Some (cause_text x) };

    fn fmt<W: fmt::Write>(&self, f: &mut fmt::Formatter<W>) -> fmt::Result {
        f.write_str(match *self {
            Cause::OpeningOutside => {
                "year, month or number of participants outside, or a book with lines"
            }
            Cause::NotInTable => "code, group or parent not in the table",
            Cause::NotForThisCall => "code not for this call",
            Cause::UnknownParticipant => "participant outside",
            Cause::OutsidePage => "page or interval outside, or not of this code",
            Cause::AmountBeyondLimit => "amount or reading beyond its limit",
            Cause::DemandOutside => "demand or weights outside their limits",
            Cause::NotOpen => "page or interval not open for this call",
            Cause::DayNotAllotted => "a day is not allotted",
            Cause::ShareBeyondLimit => "amount to share beyond its limit",
            Cause::NoWeight => "no weight for an amount other than 0",
            Cause::NoFreeLine => "too few free lines",
            Cause::TooFewPlaces => "fewer places than shares",
        })
    }
}
