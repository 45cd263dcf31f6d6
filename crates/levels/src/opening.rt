// The opening of a month: the trading month, and how many participants it has.
// It is made by a test alone, so that whoever holds one has a month that is traded and 1 to 32 participants.
ghost use Rattle.std.specs.Prelude.{◌≤◌};

use tariff::TradingMonth;

#[derive(Clone, Copy)]
pub struct Opening {
    pub(crate) month: TradingMonth,
    pub(crate) participants: u32,
    ghost some: { 1 ≤ participants },
    ghost few: { participants ≤ 32 },
}
