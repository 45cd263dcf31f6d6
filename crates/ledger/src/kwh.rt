// Measured demand in whole kWh: readings, and corrections of either sign.
// Beside `Cents` it differs in a limit alone. One type with the limit as a parameter would be no plainer: an alias of it
// cannot write `Kwh(5)`, and money and demand would be one type wherever their limits were the same.
ghost use Rattle.ledger.specs.Kinds.{kwh};
ghost use Rattle.ledger.specs.Lawful.{kwh_laws};

use crate::amount::{Amount, add};

#[derive(Clone, Copy, PartialEq, Eq, Debug)]
pub struct Kwh(pub i64);

impl Amount for Kwh {
    ghost kind = { kwh };

    ghost laws = { kwh_laws };

    fn nought() -> Kwh {
        Kwh(0)
    }

    fn join(self, other: Kwh) -> Kwh {
        Kwh(add(self.0, other.0))
    }

    fn fits_line(self) -> bool {
        self.0.unsigned_abs() <= 100_000_000
    }
}
