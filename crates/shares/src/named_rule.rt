// A rule by its name, for where which one is known only at run time.
// It answers as the rule of that name does, and is fair as all three are; not every one of them is exact.
ghost use Rattle.shares.specs.NamedRules.{split_named, fair_named};

use crate::fault::RuleFault;
use crate::largest_remainder::LargestRemainder;
use crate::nearest::Nearest;
use crate::rule::ShareRule;
use crate::running_carry::RunningCarry;

#[derive(Clone, Copy, PartialEq, Eq, Debug)]
pub enum NamedRule {
    Nearest,
    LargestRemainder,
    RunningCarry,
}

impl ShareRule for NamedRule {
    ghost split = { split_named };

    ghost fair = { fair_named };

    fn share(&self, amount: i64, weights: &[i64], shares: &mut [i64]) -> Result<(), RuleFault> {
        match self {
            NamedRule::Nearest => Nearest.share(amount, weights, shares),
            NamedRule::LargestRemainder => LargestRemainder.share(amount, weights, shares),
            NamedRule::RunningCarry => RunningCarry.share(amount, weights, shares),
        }
    }
}
