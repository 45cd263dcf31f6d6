// The calendar of a trading month: its days, and the ten-minute intervals of a day.
// One method for each fact that may come to depend on the month.
ghost use Rattle.std.specs.Prelude.{◌≡◌, ◌≤◌};
ghost use Rattle.tariff.specs.Calendar.{is_leap};
ghost use Rattle.tariff.specs.Month.{days_of, intervals_of};

use crate::trading_month::TradingMonth;

// A month's length stands in a table of twelve numbers, as the rules have it.
const LENGTHS: [u32; 12] = [31, 28, 31, 30, 31, 30, 31, 31, 30, 31, 30, 31];

const HOURS: u32 = 24;

const INTERVALS_PER_HOUR: u32 = 6;

// Whether February has 29 days.
fn is_leap(year: u32) -> bool
    ensures { result ≡ is_leap year }
{
    year % 4 == 0 && (year % 100 != 0 || year % 400 == 0)
}

impl TradingMonth {
    // The number of its days.
    #[tactic(auto, using(crate::proofs::Lengths::at_most_31), unfolding(crate::specs::Month::days_of))]
    pub fn days(self) -> u32
        ensures value { result ≡ days_of self.year self.month }
        ensures at_most { result ≤ 31 }
    {
        match self.month {
            2 if is_leap(self.year) => 29,
            1..=12 => LENGTHS[self.month as usize - 1],
            _ => 0,
        }
    }

    // The number of intervals of one of its days; 0 for a day outside the month.
    #[tactic(auto, unfolding(crate::specs::Month::intervals_of))]
    pub fn intervals(self, day: u32) -> u32
        ensures value { result ≡ intervals_of self.year self.month day }
        ensures at_most { result ≤ 144 }
    {
        if (1..=self.days()).contains(&day) {
            HOURS * INTERVALS_PER_HOUR
        } else {
            0
        }
    }
}

#[cfg(test)]
mod tests {
    use super::is_leap;

    #[test]
    fn of_the_centuries_every_fourth_is_leap(rt: HostRuntime) {
        assert!(rt; is_leap(2000) && !is_leap(2100) && is_leap(2004));
    }
}
