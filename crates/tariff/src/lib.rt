// Facts of the trade: the calendar of a trading month, its charge codes with their groups and parents, and its pages.
// Ask them of a `TradingMonth`: a later month may have another table or other days.
// There is no money here and nothing changes: what is answered is fixed by the month.
#![tactic(auto)]

mod calendar;
mod charges;
mod facts;
mod page_kind;
mod parent;
mod soundness;
mod table;
#[cfg(test)]
mod tests;
mod trading_month;

pub use page_kind::PageKind;
pub use parent::{NoSuchParent, Parent};
pub use soundness::{constants_agree, tariff_is_sound};
pub use table::{ALLOCATION_CODE, ALLOCATION_GROUP, Entry, LAST_GROUP};
pub use trading_month::TradingMonth;
