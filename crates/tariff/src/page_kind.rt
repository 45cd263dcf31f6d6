// The two kinds of page: the month's own, and those of its days.
// Each has its neutral groups, whose total is the page's imbalance, and a rounding code that takes the imbalance up.
ghost use Rattle.std.specs.Prelude.{◌≡◌};
ghost use Rattle.tariff.specs.Pages.{neutral, rounding_code};

#[derive(Clone, Copy, PartialEq, Eq, Debug)]
pub enum PageKind {
    Month,
    Day,
}

impl PageKind {
    pub fn rounding_code(self) -> u32
        ensures { result ≡ rounding_code self }
    {
        match self {
            PageKind::Day => 4989,
            PageKind::Month => 4999,
        }
    }

    // Whether a group is neutral on such a page.
    pub(crate) fn is_neutral(self, group: u32) -> bool
        ensures { result ≡ neutral self group }
    {
        match (self, group) {
            (PageKind::Day, 12 | 13 | 15) => false,
            (PageKind::Day, 1..=25) | (PageKind::Month, 27..=34) => true,
            _ => false,
        }
    }
}
