// The key as it is written: a line for each command, and at the end how many were granted and refused.
// It is gathered in memory and handed on in blocks of whole lines.
use crate::answer::Answer;
use crate::block::Block;
use std::alloc::{AllocError, Global};
use std::io;
use std::io::Write;
use text::{Line, Words};

// A block is handed on once it is this long.
const BLOCK: usize = 65_536;

#[derive(Drop)]
pub struct Sheet<W> {
    block: Block,
    to: W,
    granted: u64,
    refused: u64,
}

impl<W: Write + Drop> Sheet<W> {
    pub fn new(heap: Global, to: W) -> Result<Sheet<W>, AllocError> {
        Ok(Sheet {
            block: Block::with_capacity(heap, 2 * BLOCK)?,
            to,
            granted: 0,
            refused: 0,
        })
    }

    // The line's number, its words with single blanks, the arrow and the answer.
    pub fn write(&mut self, line: &Line<'_>, answer: &Answer<'_>) -> io::Result<()> {
        self.block.number(line.number)?;
        self.block.word(b":")?;
        for word in Words::of(line.text) {
            self.block.word(b" ")?;
            self.block.word(word)?;
        }
        self.block.word(b" -> ")?;
        self.block.answer(answer)?;
        self.block.word(b"\n")?;
        self.count(answer);
        if self.block.len() >= BLOCK {
            self.hand_on()?;
        }
        Ok(())
    }

    // What is not granted was turned down, with a number or for want of a month.
    fn count(&mut self, answer: &Answer<'_>) {
        let count = if answer.is_granted() {
            &mut self.granted
        } else {
            &mut self.refused
        };
        *count = count.saturating_add(1);
    }

    fn hand_on(&mut self) -> io::Result<()> {
        self.to.write_all(self.block.as_slice())?;
        self.block.clear();
        Ok(())
    }

    pub fn finish(mut self) -> io::Result<()> {
        self.block.word(b"done: ")?;
        self.block.number(self.granted)?;
        self.block.word(b" granted, ")?;
        self.block.number(self.refused)?;
        self.block.word(b" refused\n")?;
        self.hand_on()
    }
}
