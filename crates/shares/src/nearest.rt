// Nearest: each participant's part to the nearest cent, halves away from zero.
// It is not exact: what the shares miss, or have too much, stays with nobody.
ghost use Rattle.shares.specs.Nearest.{nearest};
ghost use Rattle.shares.specs.NearestLaws.{nearest_fair};

use crate::fault::RuleFault;
use crate::rule::ShareRule;
use crate::weights::admit;

#[derive(Clone, Copy)]
pub struct Nearest;

impl ShareRule for Nearest {
    ghost split = { λ _. nearest };

    ghost fair = { λ r. nearest_fair };

    fn share(&self, amount: i64, weights: &[i64], shares: &mut [i64]) -> Result<(), RuleFault> {
        let division = admit(amount, weights, shares.len())?;
        // A loop of its own, as the other rules have: one for all would take each rule's step as a closure, and its
        // contract would speak of the state of every call.
        // By index: of places written through `zip` and `iter_mut` nothing is known once the loop is over.
        for (i, weight) in weights.iter().enumerate() {
            let size = division.nearest(weight.unsigned_abs());
            shares[i] = division.signed(size);
        }
        Ok(())
    }
}
