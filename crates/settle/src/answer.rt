// What a command is answered with, and how the key shows it.
ghost use Rattle.std.specs.Prelude.{◌≡◌, Some, codes, ◌++◌};
ghost use Rattle.std.specs.Fmt.{DisplaysOnOk};
ghost use Rattle.std.specs.List.{flat_map};
ghost use Rattle.settle.specs.Answers.{answer_text, is_granted, share_text};

use faults::Refusal;
use std::fmt;

#[derive(Clone, Copy)]
pub enum Answer<'a> {
    Shares(&'a [i64]),
    Refused(Refusal),
    // Every command but `share` needs a month.
    NoMonth,
}

impl Answer<'_> {
    // Whether it gives what was asked for; every other answer turns the command down.
    pub fn is_granted(&self) -> bool
        ensures { result ≡ is_granted self.now }
    {
        matches!(self, Answer::Shares(_))
    }
}

fn show_shares<W: fmt::Write>(shares: &[i64], f: &mut fmt::Formatter<W>) -> fmt::Result
    ensures { DisplaysOnOk W.write_str_gives f.old result
        (Some (codes "shares" ++ flat_map share_text shares.now)) f.new }
{
    f.write_str("shares")?;
    for share in shares {
        write!(f, " {share}")?;
    }
    Ok(())
}

impl fmt::Display for Answer<'_> {
    ghost output = { λ x. Some (answer_text x) };

    fn fmt<W: fmt::Write>(&self, f: &mut fmt::Formatter<W>) -> fmt::Result {
        match self {
            Answer::Shares(shares) => show_shares(shares, f),
            Answer::Refused(refusal) => write!(f, "refused {refusal}"),
            Answer::NoMonth => f.write_str("no month is open"),
        }
    }
}
