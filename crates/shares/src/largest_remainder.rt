// Largest remainder: each part rounded down, and the missing cents to the largest remainders, ties to the lower
// participant. The places hold the remainders until each gets its share, so no other memory is needed, and the
// edge between those with a cent and those without is found by bisection.
ghost use Rattle.std.specs.Prelude.{◌≡◌, ◌-◌, ◌≤◌, min, map, length, pos, sum_by, unsigned_abs};
ghost use Rattle.shares.specs.LargestRemainder.{above, largest_remainder, remainder_size, remainders, rounded_down};
ghost use Rattle.shares.specs.Sizes.{shares_by};
ghost use Rattle.shares.specs.Workings.{dealt, Divides, Edge, held, ties_left};
ghost use Rattle.shares.specs.RemainderLaws.{largest_remainder_fair, largest_remainder_exact};

use crate::division::Division;
use crate::fault::RuleFault;
use crate::rule::{ExactRule, ShareRule};
use crate::weights::admit;
use std::cmp::Ordering;

#[derive(Clone, Copy)]
pub struct LargestRemainder;

// Leaves the remainders in the places, and answers the sum of the parts rounded down.
fn round_down(division: Division, weights: &[i64], places: &mut [i64]) -> u64
    requires divides { Divides division weights.now }
    requires places { length places.old ≡ length weights.now }
    ensures sum { result ≡ sum_by (rounded_down (unsigned_abs division.amount) weights.now) weights.now }
    ensures remainders { places.new ≡ map pos (remainders (unsigned_abs division.amount) weights.now) }
{
    let mut sum: u64 = 0;
    // By index: of places written through `zip` and `iter_mut` nothing is known once the loop is over.
    for (i, weight) in weights.iter().enumerate() {
        let part = weight.unsigned_abs();
        sum += division.rounded_down(part);
        places[i] = division.remainder(part) as i64;
    }
    sum
}

// How many remainders are above the edge.
fn count_above(remainders: &[i64], edge: u64) -> u64
    ensures { result ≡ above edge (held remainders.now) }
{
    // A loop that counts: `filter(..).count()` takes up to 2.6 times as long, and this is the rule's inmost loop.
    let mut count: u64 = 0;
    for remainder in remainders {
        if remainder.unsigned_abs() > edge {
            count += 1;
        }
    }
    count
}

// The edge between the `cents` largest remainders and the others; none is above `most`.
fn find_edge(remainders: &[i64], cents: u64, most: u64) -> u64
    requires few { cents ≤ length remainders.now }
    requires none { above most (held remainders.now) ≡ 0 }
    ensures { Edge (held remainders.now) cents result }
{
    // Bisected by hand: it is sought among numbers, and the library searches slices.
    let mut low: u64 = 0;
    let mut high: u64 = most;
    while low < high {
        let middle = low.midpoint(high);
        if count_above(remainders, middle) <= cents {
            high = middle;
        } else {
            low = middle + 1;
        }
    }
    low
}

// One of what is left, while any is.
fn take_one(left: &mut u64) -> u64
    ensures one { result ≡ min left.old 1 }
    ensures rest { left.new ≡ left.old - 1 }
{
    let one = (*left).min(1);
    *left -= one;
    one
}

// A cent for a remainder above the edge, and for one at the edge while ties are left.
fn deal(edge: u64, ties: &mut u64, remainder: u64) -> u64
    ensures cent { result ≡ dealt edge ties.old remainder }
    ensures left { ties.new ≡ ties_left edge ties.old remainder }
{
    match remainder.cmp(&edge) {
        Ordering::Greater => 1,
        Ordering::Equal => take_one(ties),
        Ordering::Less => 0,
    }
}

// Writes the share of each weight into its place.
fn share_out(division: Division, weights: &[i64], places: &mut [i64])
    requires divides { Divides division weights.now }
    requires places { length places.old ≡ length weights.now }
    ensures { places.new ≡ shares_by remainder_size division.amount weights.now }
{
    let cents = division.size() - round_down(division, weights, places);
    let edge = find_edge(places, cents, division.total);
    let mut ties = cents - count_above(places, edge);
    // By index: of places written through `zip` and `iter_mut` nothing is known once the loop is over.
    for (i, weight) in weights.iter().enumerate() {
        let cent = deal(edge, &mut ties, places[i].unsigned_abs());
        let size = division.rounded_down(weight.unsigned_abs()) + cent;
        places[i] = division.signed(size);
    }
}

impl ShareRule for LargestRemainder {
    ghost split = { λ _. largest_remainder };

    ghost fair = { λ r. largest_remainder_fair };

    fn share(&self, amount: i64, weights: &[i64], shares: &mut [i64]) -> Result<(), RuleFault> {
        let division = admit(amount, weights, shares.len())?;
        share_out(division, weights, &mut shares[0..weights.len()]);
        Ok(())
    }
}

impl ExactRule for LargestRemainder {
    ghost exact = { λ r. largest_remainder_exact };
}
