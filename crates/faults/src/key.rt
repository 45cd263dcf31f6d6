// A key: where an amount stands. Demand lines carry code 0.
// Each part is any number at all, so that every place can be asked about and every refusal can name its place.
ghost use Rattle.std.specs.Prelude.{◌≡◌, Some};
ghost use Rattle.faults.specs.Keys.{known, same};
ghost use Rattle.faults.specs.Texts.{key_text};

use std::fmt;

#[derive(Clone, Copy, PartialEq, Eq, Default, Debug)]
pub struct Key {
    pub code: u32,
    pub participant: u32,
    pub page: u32,
    pub interval: u32,
}

impl Key {
    // The place of what names no part of a key.
    pub const NOWHERE: Key = Key {
        code: 0,
        participant: 0,
        page: 0,
        interval: 0,
    };

    // No month has more than 32 participants, and their numbers start at 1.
    pub fn has_participant(self) -> bool
        ensures { result ≡ known self.participant }
    {
        (1..=32).contains(&self.participant)
    }
}

impl fmt::Display for Key {
    ghost output = { λ x. Some (key_text x) };

    fn fmt<W: fmt::Write>(&self, f: &mut fmt::Formatter<W>) -> fmt::Result {
        let Key {
            code,
            participant,
            page,
            interval,
        } = *self;
        write!(f, "{code} {participant} {page} {interval}")
    }
}

// A theorem: `==` tests just what the rules call the same key.
pub fn equality_is_sameness(p: Key, q: Key) -> bool
    ensures { result ≡ same p q }
{
    p == q
}
