// What a rule takes: the limits, and the checks that every rule makes first, in the order of their numbers.
ghost use Rattle.std.specs.Prelude.{◌≡◌, ◌+◌, ◌≤◌, IfOk, unsigned_abs};
ghost use Rattle.shares.specs.Faults.{answered, weights_refusal};
ghost use Rattle.shares.specs.Sizes.{whole};
ghost use Rattle.shares.specs.Weights.{weight_limit};
ghost use Rattle.shares.specs.Workings.{Admission, weight_refusal};

use crate::division::Division;
use crate::fault::RuleFault;

// The largest total of weights.
pub const WEIGHT_LIMIT: u64 = 40_000_000_000;

// The largest size of an amount.
pub const AMOUNT_LIMIT: u64 = 100_000_000;

// The total with one weight more, unless that is below 0 or takes the total above its limit.
fn add_weight(total: u64, weight: i64) -> Result<u64, RuleFault>
    ensures { result ≡ answered (weight_refusal total weight) (total + unsigned_abs weight) }
{
    if weight < 0 {
        return Err(RuleFault::Weights);
    }
    // It saturates, so that nothing is asked of the total: what is too large for the type is above the limit too.
    let sum = total.saturating_add(weight.unsigned_abs());
    if sum > WEIGHT_LIMIT {
        return Err(RuleFault::Weights);
    }
    Ok(sum)
}

// The total of the weights, unless one is below 0 or the total is above its limit.
// It only grows, so the first weight that takes it too far decides, and no sum is ever too large for its type.
pub fn total_weight(weights: &[i64]) -> Result<u64, RuleFault>
    ensures total { result ≡ answered (weights_refusal weights.now) (whole weights.now) }
    ensures within { IfOk result (λ total. total ≤ weight_limit) }
{
    // A `for` with `?`: `try_fold` reads no plainer, and of its total a proof knows only the calls that made it.
    let mut total: u64 = 0;
    for weight in weights {
        total = add_weight(total, *weight)?;
    }
    Ok(total)
}

// What is to be divided, unless a rule refuses the amount, the weights or the number of places.
pub fn admit(amount: i64, weights: &[i64], places: usize) -> Result<Division, RuleFault>
    ensures { Admission amount weights.now places result }
{
    let total = total_weight(weights)?;
    let size = amount.unsigned_abs();
    if size > AMOUNT_LIMIT {
        return Err(RuleFault::Amount);
    }
    if total == 0 && size > 0 {
        return Err(RuleFault::NoWeight);
    }
    if places < weights.len() {
        return Err(RuleFault::Places);
    }
    Ok(Division { amount, total })
}
