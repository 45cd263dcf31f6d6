// An extent: what a total is over, the keys of one code in a span of participants, of pages and of intervals.
ghost use Rattle.std.specs.Prelude.{◌≡◌};
ghost use Rattle.ledger.specs.Totals.{covers};

use crate::span::Span;
use faults::Key;

#[derive(Clone, Copy, PartialEq, Eq, Debug)]
pub struct Extent {
    pub code: u32,
    pub participants: Span,
    pub pages: Span,
    pub intervals: Span,
}

impl Extent {
    pub fn covers(self, key: Key) -> bool
        ensures { result ≡ covers self key }
    {
        key.code == self.code
            && self.participants.contains(key.participant)
            && self.pages.contains(key.page)
            && self.intervals.contains(key.interval)
    }
}
