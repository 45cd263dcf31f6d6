// Plain text: the lines of a text, the words of a line, and the numbers that words write.
#![tactic(auto)]

mod number;
mod word;

pub use number::{push_signed, push_unsigned, read_signed, read_unsigned};
pub use word::{Line, Lines, Words, is_spelt};
