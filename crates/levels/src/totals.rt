// Totals over a scope: the table is walked once, and the money is asked once for each code that the scope has.
ghost use Rattle.std.specs.Prelude.{◌≡◌, ◌≤◌, unsigned_abs};
ghost use Rattle.ledger.specs.Amounts.{most_lines};
ghost use Rattle.ledger.specs.Books.{Within};
ghost use Rattle.ledger.specs.Kinds.{cents};
ghost use Rattle.ledger.specs.Layers.{layer};
ghost use Rattle.ledger.specs.Totals.{total};
ghost use Rattle.levels.specs.Scopes.{amounts_by, chosen, most_total, total_over};
ghost use Rattle.levels.specs.Terms.{pages_of, participants_of, terms_of};
ghost use Rattle.levels.specs.Workings.{each_intervals, found_in, narrowed, within_scope};

use crate::opening::Opening;
use crate::scope::{Codes, Scope};
use crate::statement::Statement;
use ledger::{Amount, Book, Cents, Extent, Path, Span};
use tariff::{ALLOCATION_CODE, ALLOCATION_GROUP, Entry, PageKind};

// A span, or the one number of it that is given.
fn narrowed_to(span: Span, given: Option<u32>) -> Span
    ensures { result ≡ narrowed span given }
{
    match given {
        None => span,
        Some(number) => {
            if span.contains(number) {
                Span::only(number)
            } else {
                Span::new(1, 0)
            }
        }
    }
}

impl Opening {
    // All participants.
    pub fn every_participant(self) -> Span
        ensures { result ≡ participants_of (terms_of self) }
    {
        Span::new(1, self.participants)
    }

    // The pages of a kind.
    pub fn pages(self, kind: PageKind) -> Span
        ensures { result ≡ pages_of (terms_of self) kind }
    {
        match kind {
            PageKind::Month => Span::only(0),
            PageKind::Day => Span::new(1, self.month.days()),
        }
    }

    // The intervals that each page of a kind has: every day has as many as the first.
    // Its match stands beside that of `pages`: a helper for both would be a third.
    pub fn intervals(self, kind: PageKind) -> Span
        ensures { result ≡ each_intervals (terms_of self) kind }
    {
        match kind {
            PageKind::Month => Span::only(0),
            PageKind::Day => Span::new(1, self.month.intervals(1)),
        }
    }

    // Whether a code of the table, with its group, is one of those chosen.
    fn chooses(self, codes: Codes, entry: Entry) -> bool
        ensures { result ≡ chosen (terms_of self) codes entry }
    {
        let (code, group) = entry;
        match codes {
            Codes::Every => true,
            Codes::Only(only) => code == only,
            Codes::Group(of) => group == of,
            Codes::Parent(number) => self
                .month
                .parent_of(group)
                .is_some_and(|parent| u32::from(parent) == number),
            Codes::Neutral(kind) => self.month.is_neutral(group, kind),
            Codes::Offset => group == ALLOCATION_GROUP && code != ALLOCATION_CODE,
        }
    }
}

impl<'a, B: Book<Amount = Cents>> Statement<'a, B> {
    // Where one code stands in a scope, on pages of a kind.
    fn extent(&self, scope: Scope, code: u32, kind: PageKind) -> Extent
        ensures { result ≡ within_scope (terms_of self.now.opening) scope code kind }
    {
        let opening = self.opening;
        Extent {
            code,
            participants: narrowed_to(opening.every_participant(), scope.participant),
            pages: narrowed_to(opening.pages(kind), scope.page),
            intervals: narrowed_to(opening.intervals(kind), scope.interval),
        }
    }

    // What came by a path, or by both together.
    fn found(&self, path: Option<Path>, extent: Extent) -> Cents
        ensures sum { result ≡ total cents (amounts_by path (layer B.Book self.now.money.now)) extent }
        ensures size { Within cents most_lines result }
    {
        match path {
            Some(path) => self.money.path_total(path, extent),
            None => self.money.total(extent),
        }
    }

    // What one code of the table adds to the total over a scope.
    fn entry_total(&self, path: Option<Path>, scope: Scope, entry: Entry) -> Cents
        ensures sum { result
            ≡ found_in (terms_of self.now.opening) scope (amounts_by path (layer B.Book self.now.money.now)) entry }
        ensures size { Within cents most_lines result }
    {
        if !self.opening.chooses(scope.codes, entry) {
            return Cents(0);
        }
        let (code, group) = entry;
        match self.opening.month.page_kind_of_group(group) {
            Some(kind) => self.found(path, self.extent(scope, code, kind)),
            None => Cents(0),
        }
    }

    // The total over a scope, of what came by a path or by both together.
    pub fn total_over(&self, path: Option<Path>, scope: Scope) -> Cents
        ensures sum { result
            ≡ total_over (terms_of self.now.opening) scope (amounts_by path (layer B.Book self.now.money.now)) }
        ensures size { unsigned_abs result.0 ≤ most_total }
    {
        let mut sum = Cents(0);
        for entry in self.opening.month.table() {
            sum = sum.join(self.entry_total(path, scope, *entry));
        }
        sum
    }
}
