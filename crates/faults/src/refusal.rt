// What a fault tells: its cause, the layer that found it, and the place that it is about.
ghost use Rattle.std.specs.Prelude.{Some};
ghost use Rattle.faults.specs.Texts.{refusal_text};

use crate::cause::Cause;
use crate::key::Key;
use crate::layer::Layer;
use std::fmt;

#[derive(Clone, Copy, PartialEq, Eq, Debug)]
pub struct Refusal {
    pub cause: Cause,
    pub layer: Layer,
    pub place: Key,
}

impl fmt::Display for Refusal {
    ghost output = { λ x. Some (refusal_text x) };

    fn fmt<W: fmt::Write>(&self, f: &mut fmt::Formatter<W>) -> fmt::Result {
        let number = u8::from(self.cause);
        let layer = u8::from(self.layer);
        write!(
            f,
            "{number} layer {layer} at {}: {}",
            self.place, self.cause
        )
    }
}
