// The test that makes an opening.
ghost use Rattle.std.specs.Prelude.{◌≡◌, ◌≤◌, IfOk};
ghost use Rattle.faults.specs.Faults.{answered};
ghost use Rattle.levels.specs.Terms.{terms, terms_of, opening_told, opening_refusal};

use crate::opening::Opening;
use faults::{Cause, Fault, Key, Layer, Refusal};
use tariff::TradingMonth;

// Why no month is opened.
#[derive(Clone, Copy, PartialEq, Eq, Debug)]
pub enum OpeningFault {
    // The year, the month or the number of participants is outside.
    Outside,
}

impl Fault for OpeningFault {
    ghost told = { opening_told };

    fn refusal(&self) -> Refusal {
        match self {
            OpeningFault::Outside => Refusal {
                cause: Cause::OpeningOutside,
                layer: Layer::Month,
                place: Key::NOWHERE,
            },
        }
    }
}

impl Opening {
    pub fn check(year: u32, month: u32, participants: u32) -> Result<Opening, OpeningFault>
        ensures answer { answered opening_told result ≡ opening_refusal year month participants }
        ensures holds { IfOk result (λ o. terms_of o ≡ terms year month participants) }
    {
        let month = TradingMonth::new(year, month).ok_or(OpeningFault::Outside)?;
        if !(1..=32).contains(&participants) {
            return Err(OpeningFault::Outside);
        }
        Ok(Opening {
            month,
            participants,
        })
    }

    pub fn month(self) -> TradingMonth
        ensures { result ≡ self.month }
    {
        self.month
    }

    pub fn participants(self) -> u32
        ensures number { result ≡ self.participants }
        ensures few { result ≤ 32 }
    {
        self.participants
    }
}
