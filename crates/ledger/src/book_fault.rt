// The faults of a book at the bottom of the pile: why it turned a line down.
ghost use Rattle.std.specs.Prelude.{◌≡◌};
ghost use Rattle.ledger.specs.Faults.{book_told};
ghost use Rattle.ledger.specs.declared.book_fault.BookFault.{BookFault};

use crate::line_fault::LineFault;
use faults::{Fault, Layer, Refusal};

#[derive(Clone, Copy, PartialEq, Eq, Debug)]
pub struct BookFault(pub LineFault);

impl Fault for BookFault {
    ghost told = { book_told };

    fn refusal(&self) -> Refusal {
        self.0.told_by(Layer::Book)
    }
}

impl From<LineFault> for BookFault {
    ghost from_gives = { λ fault r. r.0 ≡ fault };

    fn from(fault: LineFault) -> BookFault {
        BookFault(fault)
    }
}
