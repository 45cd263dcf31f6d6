// The levels of a statement: what a month's terms are, the questions that may be asked of its money, and the trial balance.
// A total is the sum over the keys that its question covers, so that a client can be walked up from a subtotal to the month.
#![tactic(auto)]

mod admission;
mod asking;
mod opening;
mod places;
mod question;
mod question_fault;
mod scope;
mod statement;
mod theorems;
mod totals;

pub use admission::OpeningFault;
pub use opening::Opening;
pub use question::Question;
pub use question_fault::QuestionFault;
pub use scope::{Codes, Scope};
pub use statement::Statement;
pub use theorems::levels_add_up;

#[cfg(test)]
mod tests;
