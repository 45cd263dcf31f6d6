// The grammar of a script: what each command wants after its name, and the command of a whole line.
ghost use Rattle.std.specs.Prelude.{◌≡◌};
ghost use Rattle.std.specs.Result.{result_ok};
ghost use Rattle.script.specs.Grammar.{places, opening, last_unsigned, entry, participant_and_page, on_page};
ghost use Rattle.script.specs.Grammar.{meter, allocate, allot, subtotal, interval, balance, share};
ghost use Rattle.script.specs.Grammar.{arguments_of, understood};
ghost use Rattle.script.specs.Readings.{ahead, after_three};
ghost use Rattle.text.specs.Taking.{to_come};

use crate::arguments::Arguments;
use crate::command::{Call, Command, Opening, Places, Sharing};
use crate::verb::Verb;
use crate::wrong::{Argument, Expected, Found, Wrong};
use faults::Key;
use levels::Question;
use text::Words;

// The places of a journal and of a shares buffer where a line does not give them.
const JOURNAL_PLACES: u32 = 1_000_000;

const SHARES_PLACES: u32 = 32;

impl<'a> Arguments<'a> {
    fn places(&mut self) -> Result<Places, Wrong<'a>>
        ensures { result_ok result ≡ places (ahead self.old) }
    {
        if self.is_at_end() {
            return Ok(Places {
                money: JOURNAL_PLACES,
                demand: JOURNAL_PLACES,
            });
        }
        let money = self.unsigned(Argument::MoneyLines)?;
        let demand = self.unsigned(Argument::DemandLines)?;
        self.end()?;
        Ok(Places { money, demand })
    }

    fn opening(&mut self) -> Result<Opening, Wrong<'a>>
        ensures { result_ok result ≡ opening (ahead self.old) }
    {
        let year = self.unsigned(Argument::Year)?;
        let month = self.unsigned(Argument::Month)?;
        let participants = self.unsigned(Argument::Participants)?;
        let rule = self.rule()?;
        let places = self.places()?;
        Ok(Opening {
            year,
            month,
            participants,
            rule,
            places,
        })
    }

    // The last argument of a line.
    fn last_unsigned(&mut self, argument: Argument) -> Result<u32, Wrong<'a>>
        ensures { result_ok result ≡ last_unsigned (ahead self.old) }
    {
        let number = self.unsigned(argument)?;
        self.end()?;
        Ok(number)
    }

    fn entry(&mut self) -> Result<(Key, i64), Wrong<'a>>
        ensures { result_ok result ≡ entry (ahead self.old) }
    {
        let key = self.key()?;
        let cents = self.signed(Argument::Cents)?;
        self.end()?;
        Ok((key, cents))
    }

    fn meter(&mut self) -> Result<Call, Wrong<'a>>
        ensures { result_ok result ≡ meter (ahead self.old) }
    {
        let participant = self.unsigned(Argument::Participant)?;
        let page = self.unsigned(Argument::Page)?;
        let interval = self.unsigned(Argument::Interval)?;
        let kwh = self.signed(Argument::Kwh)?;
        self.end()?;
        Ok(Call::Meter {
            participant,
            page,
            interval,
            kwh,
        })
    }

    fn allocate(&mut self) -> Result<Call, Wrong<'a>>
        ensures { result_ok result ≡ allocate (ahead self.old) }
    {
        let code = self.unsigned(Argument::Code)?;
        let page = self.unsigned(Argument::Page)?;
        let interval = self.unsigned(Argument::Interval)?;
        let places = self.unsigned_or(Argument::Places, SHARES_PLACES)?;
        self.end()?;
        Ok(Call::Allocate {
            code,
            page,
            interval,
            places,
        })
    }

    fn allot(&mut self) -> Result<Call, Wrong<'a>>
        ensures { result_ok result ≡ allot (ahead self.old) }
    {
        let page = self.unsigned(Argument::Page)?;
        let places = self.unsigned_or(Argument::Places, SHARES_PLACES)?;
        self.end()?;
        Ok(Call::Allot { page, places })
    }

    fn subtotal(&mut self) -> Result<Question, Wrong<'a>>
        ensures { result_ok result ≡ subtotal (ahead self.old) }
    {
        let path = self.path()?;
        let key = self.key()?;
        self.end()?;
        Ok(Question::Subtotal { path, key })
    }

    fn interval(&mut self) -> Result<Question, Wrong<'a>>
        ensures { result_ok result ≡ interval (ahead self.old) }
    {
        let key = self.key()?;
        self.end()?;
        Ok(Question::Interval { key })
    }

    fn participant_and_page(&mut self) -> Result<(u32, u32), Wrong<'a>>
        ensures { result_ok result ≡ participant_and_page (ahead self.old) }
    {
        let participant = self.unsigned(Argument::Participant)?;
        let page = self.last_unsigned(Argument::Page)?;
        Ok((participant, page))
    }

    // What is asked about, then a participant and a page.
    fn on_page(&mut self, argument: Argument) -> Result<(u32, (u32, u32)), Wrong<'a>>
        ensures { result_ok result ≡ on_page (ahead self.old) }
    {
        let number = self.unsigned(argument)?;
        let place = self.participant_and_page()?;
        Ok((number, place))
    }

    fn balance(&mut self) -> Result<Command, Wrong<'a>>
        ensures { result_ok result ≡ balance (ahead self.old) }
    {
        self.end()?;
        Ok(Command::Balance)
    }

    fn share(&mut self) -> Result<Sharing, Wrong<'a>>
        ensures { result_ok result ≡ share (ahead self.old) }
    {
        let rule = self.rule()?;
        let amount = self.signed(Argument::Amount)?;
        let _ = self.signed(Argument::Weight)?;
        self.all_signed(Argument::Weight)?;
        Ok(Sharing { rule, amount })
    }

    // What several commands want is read by one method; what each makes of it stands here.
    fn command(&mut self, verb: Verb) -> Result<Command, Wrong<'a>>
        ensures { result_ok result ≡ arguments_of verb (ahead self.old) }
    {
        Ok(match verb {
            Verb::Open => Command::Open(self.opening()?),
            Verb::Post => {
                let (key, cents) = self.entry()?;
                Command::Call(Call::Post { key, cents })
            }
            Verb::Meter => Command::Call(self.meter()?),
            Verb::Adjust => {
                let (key, cents) = self.entry()?;
                Command::Call(Call::Adjust { key, cents })
            }
            Verb::Allocate => Command::Call(self.allocate()?),
            Verb::Strike => Command::Call(Call::Strike {
                page: self.last_unsigned(Argument::Page)?,
            }),
            Verb::Allot => Command::Call(self.allot()?),
            Verb::Withdraw => Command::Call(Call::Withdraw {
                page: self.last_unsigned(Argument::Page)?,
            }),
            Verb::Subtotal => Command::Ask(self.subtotal()?),
            Verb::Interval => Command::Ask(self.interval()?),
            Verb::Code => {
                let (code, (participant, page)) = self.on_page(Argument::Code)?;
                Command::Ask(Question::Code {
                    code,
                    participant,
                    page,
                })
            }
            Verb::Group => {
                let (group, (participant, page)) = self.on_page(Argument::Group)?;
                Command::Ask(Question::Group {
                    group,
                    participant,
                    page,
                })
            }
            Verb::Parent => {
                let (parent, (participant, page)) = self.on_page(Argument::Parent)?;
                Command::Ask(Question::Parent {
                    parent,
                    participant,
                    page,
                })
            }
            Verb::Settlement => {
                let (participant, page) = self.participant_and_page()?;
                Command::Ask(Question::Settlement { participant, page })
            }
            Verb::Month => Command::Ask(Question::Month {
                participant: self.last_unsigned(Argument::Participant)?,
            }),
            Verb::Balance => self.balance()?,
            Verb::Share => Command::Share(self.share()?),
        })
    }
}

// The command of a line, None where it has no word, or why it is no command.
pub fn parse(line: &[u8]) -> Result<Option<Command>, Wrong<'_>>
    ensures { result_ok result ≡ understood line.now }
{
    let mut words = Words::of(line);
    let Some(name) = words.next() else {
        return Ok(None);
    };
    let verb = Verb::named(name).ok_or(Wrong {
        found: Found::Word(name),
        expected: Expected::Command,
    })?;
    let command = Arguments::of(words).command(verb)?;
    Ok(Some(command))
}

// The weights of a line that gives a `share`: its words from the fourth on.
pub fn share_weights(line: &[u8]) -> Words<'_>
    ensures { to_come result ≡ after_three line.now }
{
    let mut words = Words::of(line);
    let _ = words.next();
    let _ = words.next();
    let _ = words.next();
    words
}
