// A fault: why a call was turned down. Each layer has a type of its own.
// Contracts speak of a fault through what it tells, so a fault carried up from a lower layer tells the same.
ghost use Rattle.std.specs.Prelude.{◌≡◌};
ghost use Rattle.faults.specs.declared.refusal.Refusal.{Refusal};

use crate::refusal::Refusal;

pub trait Fault: Copy {
    ghost told: { Self → Refusal };

    fn refusal(&self) -> Refusal
        ensures { result ≡ told self.now };
}
