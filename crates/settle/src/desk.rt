// Answers one command after another.
use crate::answer::Answer;
use faults::Fault;
use script::{Command, Sharing, share_weights};
use shares::ShareRule;
use std::alloc::{AllocError, Global};
use text::{Line, read_signed};

// The buffers are kept from command to command, and grow with the longest list of weights.
// A rule reads one slice and writes another, so weights and shares stand in two lists.
#[derive(Drop)]
pub struct Desk {
    weights: Vec<i64>,
    shares: Vec<i64>,
}

impl Desk {
    pub fn new(heap: Global) -> Desk {
        Desk {
            weights: Vec::new(heap),
            shares: Vec::new(heap),
        }
    }

    pub fn answer(&mut self, command: Command, line: &Line<'_>) -> Result<Answer<'_>, AllocError> {
        match command {
            Command::Share(sharing) => self.share(sharing, line),
            Command::Open(_) | Command::Call(_) | Command::Ask(_) | Command::Balance => {
                Ok(Answer::NoMonth)
            }
        }
    }

    fn share(&mut self, sharing: Sharing, line: &Line<'_>) -> Result<Answer<'_>, AllocError> {
        self.weights.clear();
        for weight in share_weights(line.text).filter_map(|word| read_signed(word)) {
            self.weights.push(weight)?;
        }
        self.shares.resize(self.weights.len(), 0)?;
        let weights = self.weights.as_slice();
        let shares = self.shares.as_mut_slice();
        Ok(match sharing.rule.share(sharing.amount, weights, shares) {
            Ok(()) => Answer::Shares(self.shares.as_slice()),
            Err(fault) => Answer::Refused(fault.refusal()),
        })
    }
}
