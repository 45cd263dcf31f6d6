// Why a call is turned down: a cause, the layer that found it, and the place that it is about.
// Every layer tells its refusals in these words, so that one carried up from below tells the same at the top.
#![tactic(auto)]

mod cause;
mod fault;
mod key;
mod layer;
mod refusal;
#[cfg(test)]
mod tests;

pub use cause::Cause;
pub use fault::Fault;
pub use key::{Key, equality_is_sameness};
pub use layer::Layer;
pub use refusal::Refusal;
