// The commands of a script, and the names that they have there: the first word of a line is one.
// What a command wants after its name stands in the grammar.
ghost use Rattle.std.specs.Prelude.{◌≡◌};
ghost use Rattle.script.specs.Verbs.{month_verb, question_verb, verb};

use crate::names::meaning_of;

#[derive(Clone, Copy)]
pub enum Verb {
    Open,
    Post,
    Meter,
    Adjust,
    Allocate,
    Strike,
    Allot,
    Withdraw,
    Subtotal,
    Interval,
    Code,
    Group,
    Parent,
    Settlement,
    Month,
    Balance,
    Share,
}

// Three tables, as the definition of the names has three parts.
// The calls on a month.
const MONTH_VERBS: [(&str, Verb); 7] = [
    ("post", Verb::Post),
    ("meter", Verb::Meter),
    ("adjust", Verb::Adjust),
    ("allocate", Verb::Allocate),
    ("strike", Verb::Strike),
    ("allot", Verb::Allot),
    ("withdraw", Verb::Withdraw),
];

fn month_verb(name: &[u8]) -> Option<Verb>
    ensures { result ≡ month_verb name.now }
{
    meaning_of(name, &MONTH_VERBS)
}

// The questions to a month.
const QUESTION_VERBS: [(&str, Verb); 8] = [
    ("subtotal", Verb::Subtotal),
    ("interval", Verb::Interval),
    ("code", Verb::Code),
    ("group", Verb::Group),
    ("parent", Verb::Parent),
    ("settlement", Verb::Settlement),
    ("month", Verb::Month),
    ("balance", Verb::Balance),
];

fn question_verb(name: &[u8]) -> Option<Verb>
    ensures { result ≡ question_verb name.now }
{
    meaning_of(name, &QUESTION_VERBS)
}

// The other commands.
const OTHER_VERBS: [(&str, Verb); 2] = [("open", Verb::Open), ("share", Verb::Share)];

impl Verb {
    pub fn named(name: &[u8]) -> Option<Verb>
        ensures { result ≡ verb name.now }
    {
        meaning_of(name, &OTHER_VERBS)
            .or_else(|| month_verb(name))
            .or_else(|| question_verb(name))
    }
}
