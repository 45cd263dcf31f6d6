// Why a line is turned down: one case for each cause, with the place of the line.
// Any layer that keeps lines meets these three, in this order; which layer it was, the layer's own fault says.
ghost use Rattle.std.specs.Prelude.{◌≡◌, true, false, OnOk};
ghost use Rattle.faults.specs.Faults.{answered, first_met};
ghost use Rattle.faults.specs.declared.layer.Layer.{Layer};
ghost use Rattle.ledger.specs.Books.{line_refusals};
ghost use Rattle.ledger.specs.Faults.{line_told};

use crate::amount::Amount;
use faults::{Cause, Key, Layer, Refusal};

#[derive(Clone, Copy, PartialEq, Eq, Debug)]
pub enum LineFault {
    UnknownParticipant(Key),
    AmountBeyondLimit(Key),
    NoFreeLine(Key),
}

impl LineFault {
    // What it tells as a fault of a layer.
    pub fn told_by(self, layer: Layer) -> Refusal
        ensures { result ≡ line_told layer self }
    {
        let (cause, place) = match self {
            LineFault::UnknownParticipant(place) => (Cause::UnknownParticipant, place),
            LineFault::AmountBeyondLimit(place) => (Cause::AmountBeyondLimit, place),
            LineFault::NoFreeLine(place) => (Cause::NoFreeLine, place),
        };
        Refusal {
            cause,
            layer,
            place,
        }
    }
}

// The first cause to refuse a line. Whether its layer is full is the answer of one test, with no value beside it.
pub(crate) fn check_line<K: Amount>(key: Key, amount: K, full: bool) -> Result<(), LineFault>
    ensures answer { (layer : Layer) → answered (line_told layer) result
        ≡ first_met layer key (line_refusals K.Amount.kind key amount full) }
    ensures allowed { OnOk result (K.Amount.kind.allowed amount ≡ true) }
    ensures room { OnOk result (full ≡ false) }
{
    if !key.has_participant() {
        return Err(LineFault::UnknownParticipant(key));
    }
    if !amount.fits_line() {
        return Err(LineFault::AmountBeyondLimit(key));
    }
    if full {
        return Err(LineFault::NoFreeLine(key));
    }
    Ok(())
}
