// The share rule as a trait, and the exact rule that builds on it.
// What a rule makes of an amount and weights is its ghost member `split`; its laws are asked of it wherever a rule
// answers, and nowhere else.
ghost use Rattle.std.specs.Prelude.{◌≡◌};
ghost use Rattle.shares.specs.Faults.{share_answer, shared};
ghost use Rattle.shares.specs.Laws.{Fair, Exact};
ghost use Rattle.shares.specs.Weights.{Split};

use crate::fault::RuleFault;

pub trait ShareRule {
    ghost split: { Self → Split };

    // Writes one share for each weight, and leaves later places; a refusal leaves every place.
    fn share(&self, amount: i64, weights: &[i64], shares: &mut [i64]) -> Result<(), RuleFault>
        ensures answer { result ≡ share_answer amount weights.now shares.old }
        ensures places { shares.new
            ≡ shared (split self.now) amount weights.now shares.old };

    ghost fair: { (rule : Self) → Fair (split rule) };
}

pub trait ExactRule: ShareRule {
    // Promises that this rule's shares add up to the amount.
    fn adds_up(&self)
        ensures { Exact (Self.ShareRule.split self.now) }
    {}

    ghost exact: { (rule : Self) → Exact (Self.ShareRule.split rule) };
}
