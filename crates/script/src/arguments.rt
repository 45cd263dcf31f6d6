// The words of a line after its command, taken one by one as what the command wants there.
// A reading that fails says what was found and expected.
ghost use Rattle.std.specs.Prelude.{◌≡◌, not, is_some, OnOk};
ghost use Rattle.std.specs.Option.{option_map};
ghost use Rattle.std.specs.Result.{result_ok};
ghost use Rattle.script.specs.Readings.{ahead, unsigned, unsigned_or, signed, key, rule, path, nothing, all_signed, after_four};
ghost use Rattle.script.specs.Verbs.{rule_named, path_named};
ghost use Rattle.text.specs.Words.{next_word, after_word};

use crate::names::meaning_of;
use crate::wrong::{Argument, Expected, Found, Wrong};
use faults::Key;
use ledger::Path;
use shares::NamedRule;
use text::{Words, read_signed, read_unsigned};

const RULES: [(&str, NamedRule); 3] = [
    ("nearest", NamedRule::Nearest),
    ("largest-remainder", NamedRule::LargestRemainder),
    ("running-carry", NamedRule::RunningCarry),
];

fn rule_named(word: &[u8]) -> Option<NamedRule>
    ensures { result ≡ rule_named word.now }
{
    meaning_of(word, &RULES)
}

const PATHS: [(&str, Path); 2] = [("system", Path::System), ("adjustment", Path::Adjustment)];

fn path_named(word: &[u8]) -> Option<Path>
    ensures { result ≡ path_named word.now }
{
    meaning_of(word, &PATHS)
}

// What a word was read as, or that it is not what was expected.
fn expect<T: Drop>(read: Option<T>, word: &[u8], expected: Expected) -> Result<T, Wrong<'_>>
    ensures { result_ok result ≡ read }
{
    read.ok_or(Wrong {
        found: Found::Word(word),
        expected,
    })
}

#[derive(Drop)]
pub struct Arguments<'a> {
    words: Words<'a>,
}

impl<'a> Arguments<'a> {
    pub fn of(words: Words<'a>) -> Arguments<'a>
        ensures { result.words ≡ words.entry }
    {
        Arguments { words }
    }

    // What is read of a word is two calls each time, `word` and `expect`: one function for all would take
    // the reading as a closure, and its contract would be longer than they are.

    pub fn word(&mut self, expected: Expected) -> Result<&'a [u8], Wrong<'a>>
        ensures word { option_map (λ x. x.now) (result_ok result) ≡ next_word (ahead self.old) }
        ensures rest { ahead self.new ≡ after_word (ahead self.old) }
    {
        self.words.next().ok_or(Wrong {
            found: Found::EndOfLine,
            expected,
        })
    }

    pub fn unsigned(&mut self, argument: Argument) -> Result<u32, Wrong<'a>>
        ensures value { result_ok result ≡ unsigned (ahead self.old) }
        ensures rest { ahead self.new ≡ after_word (ahead self.old) }
    {
        let expected = Expected::Unsigned(argument);
        let word = self.word(expected)?;
        expect(read_unsigned(word), word, expected)
    }

    // The same of a last argument that may be left out.
    pub fn unsigned_or(&mut self, argument: Argument, default: u32) -> Result<u32, Wrong<'a>>
        ensures value { result_ok result ≡ unsigned_or default (ahead self.old) }
        ensures rest { ahead self.new ≡ after_word (ahead self.old) }
    {
        match self.words.next() {
            Some(word) => expect(read_unsigned(word), word, Expected::Unsigned(argument)),
            None => Ok(default),
        }
    }

    pub fn signed(&mut self, argument: Argument) -> Result<i64, Wrong<'a>>
        ensures value { result_ok result ≡ signed (ahead self.old) }
        ensures rest { ahead self.new ≡ after_word (ahead self.old) }
    {
        let expected = Expected::Signed(argument);
        let word = self.word(expected)?;
        expect(read_signed(word), word, expected)
    }

    pub fn rule(&mut self) -> Result<NamedRule, Wrong<'a>>
        ensures value { result_ok result ≡ rule (ahead self.old) }
        ensures rest { ahead self.new ≡ after_word (ahead self.old) }
    {
        let word = self.word(Expected::Rule)?;
        expect(rule_named(word), word, Expected::Rule)
    }

    pub fn path(&mut self) -> Result<Path, Wrong<'a>>
        ensures value { result_ok result ≡ path (ahead self.old) }
        ensures rest { ahead self.new ≡ after_word (ahead self.old) }
    {
        let word = self.word(Expected::Path)?;
        expect(path_named(word), word, Expected::Path)
    }

    pub fn key(&mut self) -> Result<Key, Wrong<'a>>
        ensures value { result_ok result ≡ key (ahead self.old) }
        ensures rest { OnOk result (ahead self.new ≡ after_four (ahead self.old)) }
    {
        let code = self.unsigned(Argument::Code)?;
        let participant = self.unsigned(Argument::Participant)?;
        let page = self.unsigned(Argument::Page)?;
        let interval = self.unsigned(Argument::Interval)?;
        Ok(Key {
            code,
            participant,
            page,
            interval,
        })
    }

    pub fn is_at_end(&self) -> bool
        ensures { result ≡ not (is_some (next_word (ahead self.now))) }
    {
        let mut words = self.words;
        words.next().is_none()
    }

    // The line ends here.
    pub fn end(&mut self) -> Result<(), Wrong<'a>>
        ensures { result_ok result ≡ nothing (ahead self.old) }
    {
        match self.words.next() {
            Some(word) => Err(Wrong {
                found: Found::Word(word),
                expected: Expected::EndOfLine,
            }),
            None => Ok(()),
        }
    }

    // Every word that is still to come.
    pub fn all_signed(&mut self, argument: Argument) -> Result<(), Wrong<'a>>
        ensures { result_ok result ≡ all_signed (ahead self.old) }
    {
        let expected = Expected::Signed(argument);
        for word in self.words {
            let _ = expect(read_signed(word), word, expected)?;
        }
        Ok(())
    }
}
