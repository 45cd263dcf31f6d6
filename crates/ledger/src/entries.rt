// Adding up entries: what a question finds in a slice of them.
// An entry that no line may hold counts as nought, so a slice may hold anything.
ghost use Rattle.std.specs.Prelude.{◌≡◌, ◌≤◌, length};
ghost use Rattle.ledger.specs.Amounts.{most_lines};
ghost use Rattle.ledger.specs.Books.{Within};
ghost use Rattle.ledger.specs.Lines.{put, amount_of};
ghost use Rattle.ledger.specs.Totals.{covers, total};

use crate::amount::Amount;
use crate::entry::Entry;
use crate::extent::Extent;
use crate::line::Line;

// What a line adds to a total.
fn part_of<K: Amount>(line: Line<K>, extent: Extent) -> K
    ensures { result ≡ put K.Amount.kind (covers extent) line }
{
    if extent.covers(line.key) && line.amount.fits_line() {
        line.amount
    } else {
        K::nought()
    }
}

// What a question finds in entries that are no more than a book can have.
pub(crate) fn total_of<E: Entry>(entries: &[E], extent: Extent) -> E::Amount
    requires { length entries.now ≤ most_lines }
    ensures sum { result ≡ total E.Amount.Amount.kind
        (amount_of E.Amount.Amount.kind E.Entry.entered entries.now) extent }
    ensures size { Within E.Amount.Amount.kind (length entries.now) result }
{
    let mut sum = E::Amount::nought();
    for entry in entries {
        sum = sum.join(part_of(entry.line(), extent));
    }
    sum
}
