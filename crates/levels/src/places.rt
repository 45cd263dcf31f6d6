// Where the amounts of a month may stand: its participants, and the pages and intervals of its codes.
ghost use Rattle.std.specs.Prelude.{◌≡◌, ◌≤◌, T};
ghost use Rattle.tariff.specs.Month.{is_group};
ghost use Rattle.levels.specs.Questions.{has_page, in_table, on_page};
ghost use Rattle.levels.specs.Terms.{stands, takes_part, terms_of};

use crate::opening::Opening;
use faults::Key;
use tariff::PageKind;

impl Opening {
    // Whether a code is in the table.
    pub fn has_code(self, code: u32) -> bool
        ensures { result ≡ in_table (terms_of self) code }
    {
        self.month.group_of(code).is_some()
    }

    // Whether a number is a group: just the groups have a parent.
    #[tactic(auto, using(crate::proofs::Held::grouped))]
    pub fn has_group(self, group: u32) -> bool
        ensures { result ≡ is_group self.month.year self.month.month group }
    {
        self.month.parent_of(group).is_some()
    }

    // Whether a participant takes part.
    pub fn has_participant(self, participant: u32) -> bool
        ensures { result ≡ takes_part (terms_of self) participant }
    {
        (1..=self.participants).contains(&participant)
    }

    // Whether a code stands on the page of a key, in its interval.
    pub fn has_place(self, key: Key) -> bool
        ensures value { result ≡ stands (terms_of self) key.code key.page key.interval }
        ensures at_most { T result → key.page ≤ 31 }
    {
        self.month.page_kind_of_code(key.code).is_some_and(|kind| self
            .month
            .has_interval(kind, key.page, key.interval))
    }

    // Whether a page is one of those that something stands on.
    pub(crate) fn is_page_of(self, kind: Option<PageKind>, page: u32) -> bool
        ensures { result ≡ on_page (terms_of self) kind page }
    {
        kind.is_some_and(|kind| self.month.has_page(kind, page))
    }

    // Whether the month has a page.
    pub fn has_page(self, page: u32) -> bool
        ensures value { result ≡ has_page (terms_of self) page }
        ensures at_most { T result → page ≤ 31 }
    {
        self.month.has_page(PageKind::Month, page) || self.month.has_page(PageKind::Day, page)
    }
}
