// What a trading month answers beside its calendar: its charge codes with their groups and parents, and its pages.
// One method for each fact that may come to depend on the month.
ghost use Rattle.std.specs.Prelude.{◌≡◌, ◌≤◌, T};
ghost use Rattle.tariff.specs.Month.{codes_of, group_of, table_of};
ghost use Rattle.tariff.specs.Month.{groups_of, is_neutral, kind_of_code, kind_of_group, parent_of};
ghost use Rattle.tariff.specs.Month.{is_interval, is_page};

use crate::charges::{codes_in_group, find};
use crate::page_kind::PageKind;
use crate::parent::Parent;
use crate::table::{Entry, charge_table};
use crate::trading_month::TradingMonth;

impl TradingMonth {
    // Its table of charge codes with their groups, ascending by code.
    #[tactic(auto, unfolding(crate::specs::Month::table_of))]
    pub fn table(self) -> &'static [Entry]
        ensures { result.now ≡ table_of self.year self.month }
    {
        charge_table()
    }

    // The group of a charge code.
    #[tactic(auto, using(crate::proofs::TariffSound::table_orderly))]
    pub fn group_of(self, code: u32) -> Option<u32>
        ensures { result ≡ group_of self.year self.month code }
    {
        find(self.table(), code)
    }

    // The codes of a group, ascending; none for a number that is no group.
    #[tactic(auto, unfolding(crate::specs::Month::table_of))]
    pub fn codes_of(self, group: u32) -> &'static [u32]
        ensures { result.now ≡ codes_of self.year self.month group }
    {
        codes_in_group(group)
    }

    // The parent of a group.
    #[tactic(auto, unfolding(crate::specs::Month::parent_of))]
    pub fn parent_of(self, group: u32) -> Option<Parent>
        ensures { result ≡ parent_of self.year self.month group }
    {
        Parent::with_group(group)
    }

    // The groups of a parent, ascending.
    #[tactic(auto, unfolding(crate::specs::Month::groups_of))]
    pub fn groups_of(self, parent: Parent) -> &'static [u32]
        ensures { result.now ≡ groups_of self.year self.month parent }
    {
        parent.groups()
    }

    // The kind of page that a group stands on.
    pub fn page_kind_of_group(self, group: u32) -> Option<PageKind>
        ensures { result ≡ kind_of_group self.year self.month group }
    {
        Some(self.parent_of(group)?.page_kind())
    }

    // The kind of page that a charge code stands on.
    pub fn page_kind_of_code(self, code: u32) -> Option<PageKind>
        ensures { result ≡ kind_of_code self.year self.month code }
    {
        self.page_kind_of_group(self.group_of(code)?)
    }

    // Whether a group is neutral on a kind of page.
    #[tactic(auto, unfolding(crate::specs::Month::is_neutral))]
    pub fn is_neutral(self, group: u32, kind: PageKind) -> bool
        ensures { result ≡ is_neutral self.year self.month kind group }
    {
        kind.is_neutral(group)
    }

    // That a page is at most 31 ties the answer to the page, so each such test says it.
    // Whether it has a page of a kind.
    pub fn has_page(self, kind: PageKind, page: u32) -> bool
        ensures value { result ≡ is_page self.year self.month kind page }
        ensures at_most { T result → page ≤ 31 }
    {
        match kind {
            PageKind::Month => page == 0,
            PageKind::Day => (1..=self.days()).contains(&page),
        }
    }

    // Whether it has an interval on a page of a kind.
    pub fn has_interval(self, kind: PageKind, page: u32, interval: u32) -> bool
        ensures value { result ≡ is_interval self.year self.month kind page interval }
        ensures at_most { T result → (page ≤ 31) × (interval ≤ 144) }
    {
        self.has_page(kind, page)
            && match kind {
                PageKind::Month => interval == 0,
                PageKind::Day => (1..=self.intervals(page)).contains(&interval),
            }
    }
}
