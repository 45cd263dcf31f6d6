// The script of an exercise: the commands that its lines give, and what is wrong with a line that
// gives none. It knows the words of the format and none of the rules of a settlement.
#![tactic(auto)]

mod arguments;
mod command;
mod grammar;
mod names;
mod verb;
mod wrong;

pub use command::{Call, Command, Opening, Places, Sharing};
pub use grammar::{parse, share_weights};
pub use wrong::Wrong;
