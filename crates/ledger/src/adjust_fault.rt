// The faults of the pass-through adjustments: a line of their own turned down, and any fault of the book below, carried whole.
ghost use Rattle.std.specs.Prelude.{◌≡◌};
ghost use Rattle.ledger.specs.Faults.{adjust_told};
ghost use Rattle.ledger.specs.declared.adjust_fault.AdjustFault.TheVariants.{Carried, Line};

use crate::line_fault::LineFault;
use faults::{Fault, Layer, Refusal};

#[derive(Clone, Copy, PartialEq, Eq, Debug)]
pub enum AdjustFault<F> {
    Line(LineFault),
    Carried(F),
}

impl<F: Fault> Fault for AdjustFault<F> {
    ghost told = { adjust_told F.Fault.told };

    fn refusal(&self) -> Refusal {
        match self {
            AdjustFault::Line(fault) => fault.told_by(Layer::Adjustments),
            AdjustFault::Carried(fault) => fault.refusal(),
        }
    }
}

impl<F: Fault> From<LineFault> for AdjustFault<F> {
    ghost from_gives = { λ fault r. r ≡ Line fault };

    fn from(fault: LineFault) -> AdjustFault<F> {
        AdjustFault::Line(fault)
    }
}

impl<F: Fault> From<F> for AdjustFault<F> {
    ghost from_gives = { λ fault r. r ≡ Carried fault };

    fn from(fault: F) -> AdjustFault<F> {
        AdjustFault::Carried(fault)
    }
}
