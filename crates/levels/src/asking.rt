// Which questions are answered, and which keys each is about.
ghost use Rattle.std.specs.Prelude.{◌≡◌};
ghost use Rattle.faults.specs.Faults.{answered};
ghost use Rattle.levels.specs.Questions.{names_known, page_known, path_asked, place_asked};
ghost use Rattle.levels.specs.Questions.{question_refusal, question_told, scope_asked};
ghost use Rattle.levels.specs.Terms.{terms_of};

use crate::opening::Opening;
use crate::question::Question;
use crate::question_fault::QuestionFault;
use crate::scope::{Codes, Scope};
use faults::Key;
use ledger::Path;
use tariff::Parent;

impl Question {
    // The place that it names, with 0 for what it does not give.
    pub fn place(self) -> Key
        ensures { result ≡ place_asked self }
    {
        let (code, participant, page) = match self {
            Question::Subtotal { path: _, key } | Question::Interval { key } => return key,
            Question::Code {
                code,
                participant,
                page,
            } => (code, participant, page),
            Question::Group {
                group: _,
                participant,
                page,
            }
            | Question::Parent {
                parent: _,
                participant,
                page,
            }
            | Question::Settlement { participant, page } => (0, participant, page),
            Question::Month { participant } => (0, participant, 0),
        };
        Key {
            code,
            participant,
            page,
            interval: 0,
        }
    }

    // The path that it is about; but for a subtotal both together.
    pub(crate) fn path(self) -> Option<Path>
        ensures { result ≡ path_asked self }
    {
        match self {
            Question::Subtotal { path, .. } => Some(path),
            _ => None,
        }
    }

    // The keys that it is about.
    pub(crate) fn scope(self) -> Scope
        ensures { result ≡ scope_asked self }
    {
        match self {
            Question::Subtotal { path: _, key } | Question::Interval { key } => Scope::of_key(key),
            Question::Code {
                code,
                participant,
                page,
            } => Scope::on_page(Codes::Only(code), participant, page),
            Question::Group {
                group,
                participant,
                page,
            } => Scope::on_page(Codes::Group(group), participant, page),
            Question::Parent {
                parent,
                participant,
                page,
            } => Scope::on_page(Codes::Parent(parent), participant, page),
            Question::Settlement { participant, page } => Scope::on_page(
                Codes::Every,
                participant,
                page,
            ),
            Question::Month { participant } => Scope {
                codes: Codes::Every,
                participant: Some(participant),
                page: None,
                interval: None,
            },
        }
    }
}

impl Opening {
    // Whether a question is answered: the first cause to refuse it, in the order of their numbers.
    pub fn check_question(self, question: Question) -> Result<(), QuestionFault>
        ensures { answered question_told result ≡ question_refusal (terms_of self) question }
    {
        let place = question.place();
        if !self.knows_name(question) {
            return Err(QuestionFault::NotInTable(place));
        }
        if !self.has_participant(place.participant) {
            return Err(QuestionFault::UnknownParticipant(place));
        }
        if !self.knows_page(question) {
            return Err(QuestionFault::OutsidePage(place));
        }
        Ok(())
    }

    // Whether the code, group or parent that a question names is in the table.
    fn knows_name(self, question: Question) -> bool
        ensures { result ≡ names_known (terms_of self) question }
    {
        match question {
            Question::Subtotal { path: _, key } | Question::Interval { key } => {
                self.has_code(key.code)
            }
            Question::Code { code, .. } => self.has_code(code),
            Question::Group { group, .. } => self.has_group(group),
            Question::Parent { parent, .. } => Parent::try_from(parent).is_ok(),
            Question::Settlement { .. } | Question::Month { .. } => true,
        }
    }

    // Whether its page, and its interval, are of the month and of what it names.
    fn knows_page(self, question: Question) -> bool
        ensures { result ≡ page_known (terms_of self) question }
    {
        match question {
            Question::Subtotal { path: _, key } | Question::Interval { key } => self.has_place(key),
            Question::Code { code, page, .. } => {
                self.is_page_of(self.month.page_kind_of_code(code), page)
            }
            Question::Group { group, page, .. } => {
                self.is_page_of(self.month.page_kind_of_group(group), page)
            }
            Question::Parent { parent, page, .. } => {
                self.is_page_of(Parent::try_from(parent).ok().map(Parent::page_kind), page)
            }
            Question::Settlement { page, .. } => self.has_page(page),
            Question::Month { .. } => true,
        }
    }
}
