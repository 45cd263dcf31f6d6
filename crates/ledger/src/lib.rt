// The ledger: amounts that join, the books that keep them by key, and the pass-through adjustments over a book of money.
// What a book means is one record, and each call is proved by what it does to that record.
#![tactic(auto)]

mod adjust_fault;
mod adjustment;
mod adjustments;
mod amount;
mod balance;
mod book;
mod book_fault;
mod cents;
mod entries;
mod entry;
mod extent;
mod journal;
mod kwh;
mod line;
mod line_fault;
mod path;
mod span;

pub use adjust_fault::AdjustFault;
pub use adjustment::Adjustment;
pub use adjustments::{Adjustments, MOST_ADJUSTMENTS};
pub use amount::Amount;
pub use balance::Balance;
pub use book::{Book, MOST_LINES};
pub use book_fault::BookFault;
pub use cents::Cents;
pub use entry::Entry;
pub use extent::Extent;
pub use journal::Journal;
pub use kwh::Kwh;
pub use line::Line;
pub use line_fault::LineFault;
pub use path::Path;
pub use span::Span;

#[cfg(test)]
mod tests;
