// A pass-through adjustment: a net amount, new less current, entered at a key under its PTB ID.
ghost use Rattle.ledger.specs.Layers.{adjusted_line};

use crate::cents::Cents;
use crate::entry::Entry;
use crate::line::Line;
use faults::Key;

#[derive(Clone, Copy, PartialEq, Eq, Default, Debug)]
pub struct Adjustment {
    pub key: Key,
    pub amount: Cents,
    pub id: u32,
}

impl Entry for Adjustment {
    type Amount = Cents;

    ghost entered = { adjusted_line };

    fn line(&self) -> Line<Cents> {
        Line {
            key: self.key,
            amount: self.amount,
        }
    }
}
