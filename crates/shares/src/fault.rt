// Why a share rule refuses: one case for each cause, and what each tells.
// A rule knows of no key, so the place of its refusals is all zeros; a layer above carries the fault whole.
ghost use Rattle.shares.specs.Faults.{rule_told};

use faults::{Cause, Fault, Key, Layer, Refusal};

#[derive(Clone, Copy, PartialEq, Eq, Debug)]
pub enum RuleFault {
    // A weight is below 0, or the total of the weights is above its limit.
    Weights,
    // The amount is beyond its limit.
    Amount,
    // There is no weight, and something to share.
    NoWeight,
    // There are fewer places than weights.
    Places,
}

impl Fault for RuleFault {
    ghost told = { rule_told };

    fn refusal(&self) -> Refusal {
        let cause = match self {
            RuleFault::Weights => Cause::DemandOutside,
            RuleFault::Amount => Cause::ShareBeyondLimit,
            RuleFault::NoWeight => Cause::NoWeight,
            RuleFault::Places => Cause::TooFewPlaces,
        };
        Refusal {
            cause,
            layer: Layer::Rule,
            place: Key::NOWHERE,
        }
    }
}
