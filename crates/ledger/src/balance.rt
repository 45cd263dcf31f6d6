// The two sides of a balance, in cents: what is due from debtors, and what is due to creditors.
// The sides are added each to its own and never set off against each other.
ghost use Rattle.std.specs.Prelude.{◌≡◌};
ghost use Rattle.ledger.specs.Kinds.{balance, side};
ghost use Rattle.ledger.specs.Lawful.{balance_laws};

use crate::amount::{Amount, add};

#[derive(Clone, Copy, PartialEq, Eq, Debug)]
pub struct Balance {
    pub debtors: i64,
    pub creditors: i64,
}

// Whether one side of a line is within its limits.
fn side_fits(cents: i64) -> bool
    ensures { result ≡ side cents }
{
    (0..=10_000_000_000).contains(&cents)
}

impl Amount for Balance {
    ghost kind = { balance };

    ghost laws = { balance_laws };

    fn nought() -> Balance {
        Balance {
            debtors: 0,
            creditors: 0,
        }
    }

    fn join(self, other: Balance) -> Balance {
        Balance {
            debtors: add(self.debtors, other.debtors),
            creditors: add(self.creditors, other.creditors),
        }
    }

    fn fits_line(self) -> bool {
        side_fits(self.debtors) && side_fits(self.creditors)
    }
}
