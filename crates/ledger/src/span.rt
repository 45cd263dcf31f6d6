// A span of numbers, both ends included: the participants, pages or intervals that a question is about.
// A span whose last number is below its first has no numbers.
ghost use Rattle.std.specs.Prelude.{◌≡◌};
ghost use Rattle.ledger.specs.Totals.{has, span};

#[derive(Clone, Copy, PartialEq, Eq, Debug)]
pub struct Span {
    pub first: u32,
    pub last: u32,
}

impl Span {
    pub fn new(first: u32, last: u32) -> Span
        ensures { result ≡ span first last }
    {
        Span { first, last }
    }

    pub fn only(number: u32) -> Span
        ensures { result ≡ span number number }
    {
        Span::new(number, number)
    }

    pub fn contains(self, number: u32) -> bool
        ensures { result ≡ has self number }
    {
        (self.first..=self.last).contains(&number)
    }
}
