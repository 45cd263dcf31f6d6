// The journal: a book that appends to lent lines, one text for every kind of amount.
// It keeps nothing but the lines and how many it has used; what it means at a key is what its lines there join to.
// The lines are lent, since nothing here allocates, so a length stands beside them.
// No invariant is asked of the lines: whatever they hold, a line that its kind does not allow counts as nought.
ghost use Rattle.std.specs.Prelude.{◌≡◌, ◌<◌, true, length};
ghost use Rattle.ledger.specs.Books.{Posted};
ghost use Rattle.ledger.specs.Journals.{room, standing, journal_means, journal_limited, unused};

use crate::amount::Amount;
use crate::book::{Book, MOST_LINES};
use crate::book_fault::BookFault;
use crate::entries::total_of;
use crate::extent::Extent;
use crate::line::Line;
use crate::line_fault::check_line;
use faults::Key;

#[derive(Drop)]
pub struct Journal<'a, K> {
    entries: &'a mut [Line<K>],
    used: usize,
}

// How many of `used` lines stand in so many places.
fn standing_in(used: usize, places: usize) -> usize
    ensures { result ≡ standing used places }
{
    used.min(places.min(MOST_LINES))
}

impl<'a, K: Amount> Journal<'a, K> {
    // A journal with no lines, whatever stands in the places.
    pub fn new(places: &'a mut [Line<K>]) -> Journal<'a, K>
        ensures { journal_means K.Amount.kind result.entries.now result.used
            ≡ unused K.Amount.kind (length places.old) }
    {
        Journal {
            entries: places,
            used: 0,
        }
    }

    // Writes a line that is allowed into the next place, which is there.
    fn append(&mut self, line: Line<K>)
        requires room { self.old.used < room (length self.old.entries.now) }
        requires allowed { K.Amount.kind.allowed line.amount ≡ true }
        ensures { Posted K.Amount.kind
            (journal_means K.Amount.kind self.old.entries.now self.old.used)
            line.key line.amount
            (journal_means K.Amount.kind self.new.entries.now self.new.used) }
    {
        self.entries[self.used] = line;
        self.used += 1;
    }
}

impl<'a, K: Amount> Book for Journal<'a, K> {
    type Amount = K;

    type Fault = BookFault;

    const LIMIT: usize = MOST_LINES;

    ghost means = { λ s. journal_means K.Amount.kind s.entries.now s.used };

    ghost limited = { λ s. journal_limited s.used (length s.entries.now) };

    fn post(&mut self, key: Key, amount: K) -> Result<(), BookFault> {
        let full = self.used >= self.entries.len() || self.used >= MOST_LINES;
        check_line(key, amount, full)?;
        self.append(Line { key, amount });
        Ok(())
    }

    fn total(&self, extent: Extent) -> K {
        let n = self.lines();
        total_of(&self.entries[0..n], extent)
    }

    fn lines(&self) -> usize {
        standing_in(self.used, self.entries.len())
    }

    fn free(&self) -> usize {
        self.entries.len().min(MOST_LINES) - self.lines()
    }
}
