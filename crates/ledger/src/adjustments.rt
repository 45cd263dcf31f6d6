// Pass-through adjustments: a layer that is itself a book, over any book of money, another such layer too.
// Posts go below; adjustments stay here, numbered in the order of their grant. What is below is the system path,
// what is here the adjustment path, and the book that the layer is means both together.
ghost use Rattle.std.specs.Prelude.{◌≡◌, ◌<◌, ◌≤◌, false, length, MatchResult};
ghost use Rattle.ledger.specs.Amounts.{most_lines};
ghost use Rattle.ledger.specs.Books.{Within, post_refusal};
ghost use Rattle.faults.specs.Faults.{answered};
ghost use Rattle.ledger.specs.Faults.{adjust_told};
ghost use Rattle.ledger.specs.Kinds.{cents};
ghost use Rattle.ledger.specs.Layers.{layer, layered, layer_lines, layer_limited, most_adjustments, bare, full, holding};
ghost use Rattle.ledger.specs.Layers.{path_amount, path_lines, adjusted_at, adjust_refusal, Adjusted, PostedBelow, Untouched};
ghost use Rattle.ledger.specs.Totals.{total as total_of};

use crate::adjust_fault::AdjustFault;
use crate::adjustment::Adjustment;
use crate::amount::Amount;
use crate::book::{Book, MOST_LINES};
use crate::cents::Cents;
use crate::entries::total_of;
use crate::extent::Extent;
use crate::line_fault::check_line;
use crate::path::Path;
use arrayvec::ArrayVec;
use faults::Key;

// No layer holds more adjustments than this.
pub const MOST_ADJUSTMENTS: usize = 256;

#[derive(Drop)]
pub struct Adjustments<B> {
    below: B,
    held: ArrayVec<Adjustment, MOST_ADJUSTMENTS>,
}

fn any_at(held: &[Adjustment], key: Key) -> bool
    ensures { result ≡ adjusted_at held.now key }
{
    held.iter().any(|adjustment| adjustment.key == key)
}

impl<B: Book<Amount = Cents>> Adjustments<B> {
    pub fn new(below: B) -> Adjustments<B>
        ensures { layer B.Book result ≡ bare (B.Book.means below) }
    {
        Adjustments {
            below,
            held: ArrayVec::new(),
        }
    }

    // The adjustments held, in the order of their grant.
    pub fn held(&self) -> &[Adjustment]
        ensures list { result.now ≡ (layer B.Book self.now).held }
        ensures few { length result.now ≤ most_adjustments }
    {
        let left = MOST_LINES - self.below.lines();
        &self.held[..self.held.len().min(left)]
    }

    // Whether no adjustment fits.
    pub fn is_full(&self) -> bool
        ensures { result ≡ full (layer B.Book self.now) }
    {
        self.held().len() >= MOST_ADJUSTMENTS || self.lines() >= MOST_LINES
    }

    // A system amount goes to the book below, unless this layer has no line left.
    pub fn post_system(&mut self, key: Key, amount: Cents) -> Result<(), AdjustFault<B::Fault>>
        ensures answer { answered (adjust_told B.Fault.Fault.told) result
            ≡ post_refusal cents (layered (layer B.Book self.old)) key amount }
        ensures after { MatchResult result
            (λ _. PostedBelow (layer B.Book self.old) key amount (layer B.Book self.new))
            (λ _. Untouched (layer B.Book self.old) (layer B.Book self.new)) }
    {
        if self.lines() >= MOST_LINES {
            return Ok(check_line(key, amount, true)?);
        }
        self.post_below(key, amount)
    }

    // With a line left, the book below answers for the layer.
    fn post_below(&mut self, key: Key, amount: Cents) -> Result<(), AdjustFault<B::Fault>>
        requires { layer_lines (layer B.Book self.old) < most_lines }
        ensures answer { answered (adjust_told B.Fault.Fault.told) result
            ≡ post_refusal cents (layered (layer B.Book self.old)) key amount }
        ensures after { MatchResult result
            (λ _. PostedBelow (layer B.Book self.old) key amount (layer B.Book self.new))
            (λ _. Untouched (layer B.Book self.old) (layer B.Book self.new)) }
    {
        self.below.post(key, amount)?;
        Ok(())
    }

    // An adjustment stays in this layer, and is answered by its PTB ID.
    pub fn adjust(&mut self, key: Key, amount: Cents) -> Result<u32, AdjustFault<B::Fault>>
        ensures answer { answered (adjust_told B.Fault.Fault.told) result
            ≡ adjust_refusal (layer B.Book self.old) key amount }
        ensures after { MatchResult result
            (λ id. Adjusted (layer B.Book self.old) key amount id (layer B.Book self.new))
            (λ _. Untouched (layer B.Book self.old) (layer B.Book self.new)) }
    {
        check_line(key, amount, self.is_full())?;
        let id = self.held().len() as u32 + 1;
        self.hold(Adjustment { key, amount, id });
        Ok(id)
    }

    // Writes an adjustment into the next place, which is there.
    fn hold(&mut self, adjustment: Adjustment)
        requires { full (layer B.Book self.old) ≡ false }
        ensures { layer B.Book self.new ≡ holding (layer B.Book self.old) adjustment }
    {
        self.held.push(adjustment);
    }

    // The total of what came by one path.
    pub fn path_total(&self, path: Path, extent: Extent) -> Cents
        ensures sum { result ≡ total_of cents (path_amount path (layer B.Book self.now)) extent }
        ensures size { Within cents (path_lines path (layer B.Book self.now)) result }
    {
        match path {
            Path::System => self.below.total(extent),
            Path::Adjustment => total_of(self.held(), extent),
        }
    }

    // Whether the key has an adjustment, even of 0.
    pub fn adjusted_at(&self, key: Key) -> bool
        ensures { result ≡ adjusted_at (layer B.Book self.now).held key }
    {
        any_at(self.held(), key)
    }
}

impl<B: Book<Amount = Cents>> Book for Adjustments<B> {
    type Amount = Cents;

    type Fault = AdjustFault<B::Fault>;

    const LIMIT: usize = MOST_LINES;

    ghost means = { λ s. layered (layer B.Book s) };

    ghost limited = { λ s. layer_limited B.Book s };

    fn post(&mut self, key: Key, amount: Cents) -> Result<(), AdjustFault<B::Fault>> {
        self.post_system(key, amount)
    }

    fn total(&self, extent: Extent) -> Cents {
        let system = self.path_total(Path::System, extent);
        let own = self.path_total(Path::Adjustment, extent);
        system.join(own)
    }

    fn lines(&self) -> usize {
        self.below.lines() + self.held().len()
    }

    fn free(&self) -> usize {
        self.below.free().min(MOST_LINES - self.lines())
    }
}
