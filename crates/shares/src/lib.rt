// Share rules: how an amount is divided by weights.
// A rule reads lent weights and writes lent places, one share for each weight; its answer goes by the amount and
// the weights alone. Three rules stand here, and a caller takes any by the bound `ShareRule` or `ExactRule`,
// or one by its name, `NamedRule`.
#![tactic(auto)]

mod division;
mod fault;
mod largest_remainder;
mod named_rule;
mod nearest;
mod rule;
mod running_carry;
#[cfg(test)]
mod tests;
mod theorems;
mod weights;

pub use division::Division;
pub use fault::RuleFault;
pub use largest_remainder::LargestRemainder;
pub use named_rule::NamedRule;
pub use nearest::Nearest;
pub use rule::{ExactRule, ShareRule};
pub use running_carry::RunningCarry;
pub use theorems::{figures_stand, laws_stand, nearest_stands, refusals_stand};
pub use weights::{AMOUNT_LIMIT, WEIGHT_LIMIT, admit, total_weight};
