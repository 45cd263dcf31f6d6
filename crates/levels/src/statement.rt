// A statement: what stands in the money of an opened month, for a client to read. Nothing changes by being read.
ghost use Rattle.std.specs.Prelude.{◌≡◌, ◌^◌, ◌<◌, unsigned_abs};
ghost use Rattle.ledger.specs.Layers.{layer};
ghost use Rattle.levels.specs.Questions.{side_of, total, total_answer, told_answer, trial_balance};
ghost use Rattle.levels.specs.Terms.{terms_of};
ghost use Rattle.levels.specs.declared.question.Question.TheVariants.{Month};

use crate::opening::Opening;
use crate::question::Question;
use crate::question_fault::QuestionFault;
use ledger::{Adjustments, Amount, Balance, Book, Cents};

// No `Model` makes its terms and its layer one value: each clause would take the pair apart again.
#[derive(Drop)]
pub struct Statement<'a, B> {
    pub opening: Opening,
    pub money: &'a Adjustments<B>,
}

// A month total on its side.
fn side(cents: i64) -> Balance
    requires { unsigned_abs cents < 2 ^ 63 }
    ensures { result ≡ side_of cents }
{
    Balance {
        debtors: cents.max(0),
        creditors: (-cents).max(0),
    }
}

impl<'a, B: Book<Amount = Cents>> Statement<'a, B> {
    // The total that a question asks for.
    pub fn total(&self, question: Question) -> Result<Cents, QuestionFault>
        ensures { told_answer result
            ≡ total_answer (terms_of self.now.opening) (layer B.Book self.now.money.now) question }
    {
        self.opening.check_question(question)?;
        Ok(self.total_over(question.path(), question.scope()))
    }

    // What a participant has in the month, on its side.
    fn month_side(&self, participant: u32) -> Balance
        ensures { result
            ≡ side_of (total (terms_of self.now.opening) (layer B.Book self.now.money.now) (Month participant)).0 }
    {
        let month = Question::Month { participant };
        side(self.total_over(month.path(), month.scope()).0)
    }

    // The trial balance: the month totals of all participants, each on its side.
    pub fn trial_balance(&self) -> Balance
        ensures { result ≡ trial_balance (terms_of self.now.opening) (layer B.Book self.now.money.now) }
    {
        // Asked for its promise alone: a full book bounds each month total, so that 32 of them fit a side.
        let _ = self.money.lines();
        let mut balance = Balance::nought();
        for participant in 1..=self.opening.participants() {
            balance = balance.join(self.month_side(participant));
        }
        balance
    }
}
