// Net money in whole cents: above 0 is charged to the participant, below 0 is paid to it.
ghost use Rattle.ledger.specs.Kinds.{cents};
ghost use Rattle.ledger.specs.Lawful.{cents_laws};

use crate::amount::{Amount, add};

#[derive(Clone, Copy, PartialEq, Eq, Default, Debug)]
pub struct Cents(pub i64);

impl Amount for Cents {
    ghost kind = { cents };

    ghost laws = { cents_laws };

    fn nought() -> Cents {
        Cents(0)
    }

    fn join(self, other: Cents) -> Cents {
        Cents(add(self.0, other.0))
    }

    fn fits_line(self) -> bool {
        self.0.unsigned_abs() <= 10_000_000_000
    }
}
