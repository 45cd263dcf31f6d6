// Running carry: each participant gets the rounded-down running total less the one before.
// What rounding down takes from one is carried to the next, so the shares add up to the amount.
ghost use Rattle.std.specs.Prelude.{◌≡◌, ◌+◌, ◌-◌, ◌≤◌};
ghost use Rattle.shares.specs.RunningCarry.{running_carry};
ghost use Rattle.shares.specs.Workings.{carried};
ghost use Rattle.shares.specs.CarryLaws.{running_carry_fair, running_carry_exact};

use crate::division::Division;
use crate::fault::RuleFault;
use crate::rule::{ExactRule, ShareRule};
use crate::weights::admit;

#[derive(Clone, Copy)]
pub struct RunningCarry;

// What goes from weight to weight: the weights so far, and the part of these together, rounded down.
#[derive(Clone, Copy)]
struct Carry {
    weighed: u64,
    running: u64,
}

impl Carry {
    // Takes the next weight in, and answers by how much the running total grows.
    fn take_in(&mut self, division: Division, part: u64) -> u64
        requires within { self.old.weighed + part ≤ division.total }
        requires grows { self.old.running ≤ (carried division self.old part).running }
        ensures growth { result ≡ (carried division self.old part).running - self.old.running }
        ensures after { self.new ≡ carried division self.old part }
    {
        let before = self.running;
        self.weighed += part;
        self.running = division.rounded_down(self.weighed);
        self.running - before
    }
}

impl ShareRule for RunningCarry {
    ghost split = { λ _. running_carry };

    ghost fair = { λ r. running_carry_fair };

    fn share(&self, amount: i64, weights: &[i64], shares: &mut [i64]) -> Result<(), RuleFault> {
        let division = admit(amount, weights, shares.len())?;
        let mut carry = Carry {
            weighed: 0,
            running: 0,
        };
        // By index: of places written through `zip` and `iter_mut` nothing is known once the loop is over.
        for (i, weight) in weights.iter().enumerate() {
            let size = carry.take_in(division, weight.unsigned_abs());
            shares[i] = division.signed(size);
        }
        Ok(())
    }
}

impl ExactRule for RunningCarry {
    ghost exact = { λ r. running_carry_exact };
}
