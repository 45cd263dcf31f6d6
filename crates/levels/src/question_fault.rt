// Why a question is refused: one case for each cause, with the place that the question names.
ghost use Rattle.levels.specs.Questions.{question_told};

use faults::{Cause, Fault, Key, Layer, Refusal};

#[derive(Clone, Copy, PartialEq, Eq, Debug)]
pub enum QuestionFault {
    NotInTable(Key),
    UnknownParticipant(Key),
    OutsidePage(Key),
}

impl Fault for QuestionFault {
    ghost told = { question_told };

    fn refusal(&self) -> Refusal {
        let (cause, place) = match *self {
            QuestionFault::NotInTable(place) => (Cause::NotInTable, place),
            QuestionFault::UnknownParticipant(place) => (Cause::UnknownParticipant, place),
            QuestionFault::OutsidePage(place) => (Cause::OutsidePage, place),
        };
        Refusal {
            cause,
            layer: Layer::Month,
            place,
        }
    }
}
