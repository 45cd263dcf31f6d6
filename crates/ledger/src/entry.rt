// An entry: anything that is kept as a line, with or without marks of its own.
// Code that adds up entries is written once, for plain lines and for marked ones.
ghost use Rattle.std.specs.Prelude.{◌≡◌};
ghost use Rattle.ledger.specs.declared.line.Line.{Line};

use crate::amount::Amount;
use crate::line::Line;

pub trait Entry: Copy {
    type Amount: Amount;

    ghost entered: { Self → Line Self.Amount };

    fn line(&self) -> Line<Self::Amount>
        ensures { result ≡ entered self.now };
}

impl<K: Amount> Entry for Line<K> {
    type Amount = K;

    ghost entered = { λ line. line };

    fn line(&self) -> Line<K> {
        *self
    }
}
