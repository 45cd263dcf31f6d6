// A line: an amount entered at a key.
ghost use Rattle.std.specs.Prelude.{◌≡◌};
ghost use Rattle.ledger.specs.Lines.{blank as blank_line};

use crate::amount::Amount;
use faults::Key;

#[derive(Clone, Copy, PartialEq, Eq, Debug)]
pub struct Line<K> {
    pub key: Key,
    pub amount: K,
}

impl<K: Amount> Line<K> {
    // A line that says nothing: what a buffer is filled with before it is lent to a journal.
    pub fn blank() -> Line<K>
        ensures { result ≡ blank_line K.Amount.kind }
    {
        Line {
            key: Key::NOWHERE,
            amount: K::nought(),
        }
    }
}
