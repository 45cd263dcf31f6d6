// Why a line is not a command: what was found, and what was expected in its place.
use std::fmt;

// A word of the format that stands for a number.
#[derive(Clone, Copy)]
pub enum Argument {
    Year,
    Month,
    Participants,
    MoneyLines,
    DemandLines,
    Code,
    Participant,
    Page,
    Interval,
    Group,
    Parent,
    Places,
    Cents,
    Kwh,
    Amount,
    Weight,
}

impl fmt::Display for Argument {
    fn fmt<W: fmt::Write>(&self, f: &mut fmt::Formatter<W>) -> fmt::Result {
        f.write_str(match *self {
            Argument::Year => "YEAR",
            Argument::Month => "MONTH",
            Argument::Participants => "PARTICIPANTS",
            Argument::MoneyLines => "MONEY-LINES",
            Argument::DemandLines => "DEMAND-LINES",
            Argument::Code => "CODE",
            Argument::Participant => "PARTICIPANT",
            Argument::Page => "PAGE",
            Argument::Interval => "INTERVAL",
            Argument::Group => "GROUP",
            Argument::Parent => "PARENT",
            Argument::Places => "PLACES",
            Argument::Cents => "CENTS",
            Argument::Kwh => "KWH",
            Argument::Amount => "AMOUNT",
            Argument::Weight => "WEIGHT",
        })
    }
}

#[derive(Clone, Copy)]
pub enum Expected {
    Command,
    Unsigned(Argument),
    Signed(Argument),
    Rule,
    Path,
    EndOfLine,
}

impl fmt::Display for Expected {
    fn fmt<W: fmt::Write>(&self, f: &mut fmt::Formatter<W>) -> fmt::Result {
        match *self {
            Expected::Command => f.write_str("a command; settle --help lists them"),
            Expected::Unsigned(argument) => write!(
                f,
                "{argument}, a whole number from 0 to 4294967295"
            ),
            Expected::Signed(argument) => {
                write!(
                    f,
                    "{argument}, a whole number from -9223372036854775808 to 9223372036854775807"
                )
            }
            Expected::Rule => f.write_str(
                "RULE, one of nearest, largest-remainder and running-carry",
            ),
            Expected::Path => f.write_str("system or adjustment"),
            Expected::EndOfLine => f.write_str("the end of the line"),
        }
    }
}

#[derive(Clone, Copy)]
pub enum Found<'a> {
    Word(&'a [u8]),
    EndOfLine,
}

// A word as it can be shown on any terminal: 60 bytes of it at most, and no byte but printable ASCII.
const SHOWN: usize = 60;

fn show_word<W: fmt::Write>(word: &[u8], f: &mut fmt::Formatter<W>) -> fmt::Result {
    f.write_str("'")?;
    for byte in word.iter().copied().take(SHOWN) {
        if (b' '..=b'~').contains(&byte) {
            f.write_char(char::from(byte))?;
        } else {
            write!(f, "\\x{byte:02x}")?;
        }
    }
    f.write_str(if word.len() > SHOWN { "..'" } else { "'" })
}

impl fmt::Display for Found<'_> {
    fn fmt<W: fmt::Write>(&self, f: &mut fmt::Formatter<W>) -> fmt::Result {
        match self {
            Found::Word(word) => show_word(word, f),
            Found::EndOfLine => f.write_str("the end of the line"),
        }
    }
}

#[derive(Clone, Copy)]
pub struct Wrong<'a> {
    pub found: Found<'a>,
    pub expected: Expected,
}

impl fmt::Display for Wrong<'_> {
    fn fmt<W: fmt::Write>(&self, f: &mut fmt::Formatter<W>) -> fmt::Result {
        let found = &self.found;
        let expected = &self.expected;
        write!(f, "found {found}, expected {expected}")
    }
}
