// A book: amounts by key, added to line by line.
// What a book means is one record, and every call is proved by what it does to that record, so code over any book
// needs no more than this trait. No call has a condition: what a book cannot take it refuses, and a refusal changes nothing.
ghost use Rattle.std.specs.Prelude.{◌≡◌, MatchResult};
ghost use Rattle.ledger.specs.Books.{Meaning, Limited, post_refusal, Posted, Unchanged, Bounded, NoughtWhenEmpty, Within};
ghost use Rattle.faults.specs.Faults.{answered};
ghost use Rattle.ledger.specs.Totals.{total as total_of};

use crate::amount::Amount;
use crate::extent::Extent;
use faults::{Fault, Key};

// No book has more lines than this.
pub const MOST_LINES: usize = 1_000_000;

pub trait Book {
    type Amount: Amount;

    type Fault: Fault;

    // The largest number of lines, never above `MOST_LINES`.
    const LIMIT: usize;

    ghost means: { Self → Meaning Self.Amount };

    // Nothing is known of a constant in generic code: this says what `LIMIT` promises.
    ghost limited: { (book : Self) → Limited (means book) };

    // A key and an amount, as the rules put a post; a `Line` is what some books keep of it.
    fn post(&mut self, key: Key, amount: Self::Amount) -> Result<(), Self::Fault>
        ensures answer { answered Self.Fault.Fault.told result
            ≡ post_refusal Self.Amount.Amount.kind (means self.old) key amount }
        ensures after { MatchResult result
            (λ _. Posted Self.Amount.Amount.kind (means self.old) key amount (means self.new))
            (λ _. Unchanged (means self.old) (means self.new)) };

    fn total(&self, extent: Extent) -> Self::Amount
        ensures sum { result
            ≡ total_of Self.Amount.Amount.kind (means self.now).amount extent }
        ensures size { Within Self.Amount.Amount.kind (means self.now).lines result };

    fn lines(&self) -> usize
        ensures count { result ≡ (means self.now).lines }
        ensures bound { Bounded Self.Amount.Amount.kind (means self.now) }
        ensures empty { NoughtWhenEmpty Self.Amount.Amount.kind (means self.now) };

    fn free(&self) -> usize
        ensures { result ≡ (means self.now).free };
}
