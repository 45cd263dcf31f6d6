// A trading month: a year and a month of the calendar, within the years that are traded.
// What may one day differ from month to month is asked of it.
ghost use Rattle.std.specs.Prelude.{◌≡◌, is_some, IfSome};
ghost use Rattle.tariff.specs.Calendar.{is_traded};

#[derive(Clone, Copy, PartialEq, Eq, Debug)]
pub struct TradingMonth {
    pub(crate) year: u32,
    pub(crate) month: u32,
}

impl TradingMonth {
    // The month, if it is traded.
    pub fn new(year: u32, month: u32) -> Option<TradingMonth>
        ensures traded { is_some result ≡ is_traded year month }
        ensures holds { IfSome result (λ m. (m.year ≡ year) × (m.month ≡ month)) }
    {
        if (2009..=2099).contains(&year) && (1..=12).contains(&month) {
            Some(TradingMonth { year, month })
        } else {
            None
        }
    }

    pub fn year(self) -> u32
        ensures { result ≡ self.year }
    {
        self.year
    }

    pub fn month(self) -> u32
        ensures { result ≡ self.month }
    {
        self.month
    }
}
