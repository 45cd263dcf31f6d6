// What of the key is gathered in memory and not handed on yet.
ghost use Rattle.std.specs.Prelude.{◌≡◌, [], ◌++◌, decimal, length, IfOk, OnOk};
ghost use Rattle.settle.specs.Answers.{answer_text};

use crate::answer::Answer;
use std::alloc::{AllocError, Global};
use std::fmt;
use std::fmt::Write;
use text::push_unsigned;

// No `BufWriter`: that hands on what it holds when it is let go, and cuts lines where its room ends. Where memory runs
// out, the key is to end with a whole line, and what is left of it is not to be written.
#[derive(Drop)]
pub struct Block {
    bytes: Vec<u8>,
}

// It fails where memory runs out, and for no other reason.
impl Write for Block {
    ghost write_str_gives = { λ before text after. after.bytes.items ≡ before.bytes.items ++ text };

    fn write_str(&mut self, text: &str) -> fmt::Result {
        self.bytes.extend_from_slice(text.as_bytes())?;
        Ok(())
    }
}

impl Block {
    pub fn with_capacity(heap: Global, room: usize) -> Result<Block, AllocError>
        ensures { IfOk result (λ block. block.bytes.items ≡ []) }
    {
        let bytes = Vec::with_capacity(heap, room)?;
        Ok(Block { bytes })
    }

    pub fn word(&mut self, word: &[u8]) -> Result<(), AllocError>
        ensures { OnOk result (self.new.bytes.items ≡ self.old.bytes.items ++ word.now) }
    {
        self.bytes.extend_from_slice(word)
    }

    pub fn number(&mut self, number: u64) -> Result<(), AllocError>
        ensures { OnOk result (self.new.bytes.items ≡ self.old.bytes.items ++ decimal number) }
    {
        push_unsigned(&mut self.bytes, number)
    }

    pub fn answer(&mut self, answer: &Answer<'_>) -> Result<(), AllocError>
        ensures { OnOk result (self.new.bytes.items ≡ self.old.bytes.items ++ answer_text answer.now) }
    {
        match write!(self, "{answer}") {
            Ok(()) => Ok(()),
            Err(_) => Err(AllocError),
        }
    }

    pub fn len(&self) -> usize
        ensures { result ≡ length self.now.bytes.items }
    {
        self.bytes.len()
    }

    pub fn as_slice(&self) -> &[u8]
        ensures { result.now ≡ self.now.bytes.items }
    {
        self.bytes.as_slice()
    }

    pub fn clear(&mut self)
        ensures { self.new.bytes.items ≡ [] }
    {
        self.bytes.clear();
    }
}
