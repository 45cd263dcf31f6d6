// Cases that a clerk would try, with figures worked out by hand: three participants in April 2026.
ghost use Rattle.std.specs.Prelude.{◌≡◌};
ghost use Rattle.levels.specs.Questions.{question_refusal};
ghost use Rattle.levels.specs.Terms.{terms_of};

use crate::opening::Opening;
use crate::question::Question;
use crate::statement::Statement;
use faults::{Cause, Fault, Key, Layer, Refusal};
use ledger::{AdjustFault, Adjustments, Balance, Book, Cents, Journal, Line, Path};
use std::test::Fail;

fn at(code: u32, participant: u32, page: u32, interval: u32) -> Key {
    Key {
        code,
        participant,
        page,
        interval,
    }
}

// How a question is answered.
fn refusal_of(opening: Opening, question: Question) -> Option<Refusal>
    ensures { result ≡ question_refusal (terms_of opening) question }
{
    match opening.check_question(question) {
        Ok(()) => None,
        Err(fault) => Some(fault.refusal()),
    }
}

fn by_month(cause: Cause, place: Key) -> Refusal {
    Refusal {
        cause,
        layer: Layer::Month,
        place,
    }
}

fn april() -> Result<Opening, Fail> {
    Ok(Opening::check(2026, 4, 3)?)
}

// Codes 6470 and 491 are of group 4 and 6090 of group 3, all under parent 1; 6301 is under parent 3, 4999 under parent 2.
fn enter<B: Book<Amount = Cents>>(money: &mut Adjustments<B>) -> Result<(), AdjustFault<B::Fault>> {
    money.post(at(6470, 1, 1, 1), Cents(-100))?;
    money.post(at(6470, 1, 1, 2), Cents(30))?;
    money.post(at(491, 1, 1, 1), Cents(4))?;
    money.post(at(6090, 1, 1, 144), Cents(6))?;
    money.post(at(6301, 1, 1, 1), Cents(7))?;
    money.post(at(6470, 1, 2, 1), Cents(1))?;
    money.post(at(4999, 2, 0, 0), Cents(50))?;
    money.adjust(at(6470, 1, 1, 1), Cents(12))?;
    Ok(())
}

#[test]
fn a_statement_is_walked_up_from_a_subtotal_to_the_month(rt: HostRuntime) -> Result<(), Fail> {
    let april = april()?;
    let mut places = [Line::<Cents>::blank(); 8];
    let mut money = Adjustments::new(Journal::new(&mut places));
    enter(&mut money)?;
    let statement = Statement {
        opening: april,
        money: &money,
    };
    let key = at(6470, 1, 1, 1);
    let (participant, page) = (1, 1);
    let system = Question::Subtotal {
        path: Path::System,
        key,
    };
    assert_eq!(rt; statement.total(system)?, Cents(-100));
    let own = Question::Subtotal {
        path: Path::Adjustment,
        key,
    };
    assert_eq!(rt; statement.total(own)?, Cents(12));
    // -100 + 12
    assert_eq!(rt; statement.total(Question::Interval { key })?, Cents(-88));
    // and 30 in interval 2
    let code = Question::Code {
        code: 6470,
        participant,
        page,
    };
    assert_eq!(rt; statement.total(code)?, Cents(-58));
    // and 4 of code 491
    let group = Question::Group {
        group: 4,
        participant,
        page,
    };
    assert_eq!(rt; statement.total(group)?, Cents(-54));
    // and 6 of group 3
    let parent = Question::Parent {
        parent: 1,
        participant,
        page,
    };
    assert_eq!(rt; statement.total(parent)?, Cents(-48));
    // and 7 under parent 3
    let settlement = Question::Settlement { participant, page };
    assert_eq!(rt; statement.total(settlement)?, Cents(-41));
    // and 1 on page 2
    assert_eq!(rt;
        statement.total(Question::Month { participant })?,
        Cents(-40)
    );
    // participant 1 is due 40, participant 2 owes 50, participant 3 has nothing
    let balance = Balance {
        debtors: 50,
        creditors: 40,
    };
    assert_eq!(rt; statement.trial_balance(), balance);
    Ok(())
}

#[test]
fn a_refused_question_names_its_place(rt: HostRuntime) -> Result<(), Fail> {
    let april = april()?;
    // no such code, told before the unknown participant
    let unknown = Question::Code {
        code: 6471,
        participant: 4,
        page: 1,
    };
    assert_eq!(rt;
        refusal_of(april, unknown),
        Some(by_month(Cause::NotInTable, at(6471, 4, 1, 0)))
    );
    assert_eq!(rt;
        refusal_of(april, Question::Month { participant: 4 }),
        Some(by_month(Cause::UnknownParticipant, at(0, 4, 0, 0)))
    );
    // April has 30 days of 144 intervals
    let page_31 = Question::Settlement {
        participant: 3,
        page: 31,
    };
    assert_eq!(rt;
        refusal_of(april, page_31),
        Some(by_month(Cause::OutsidePage, at(0, 3, 31, 0)))
    );
    let key = at(6470, 3, 30, 145);
    assert_eq!(rt;
        refusal_of(april, Question::Interval { key }),
        Some(by_month(Cause::OutsidePage, key))
    );
    let last = Question::Interval {
        key: at(6470, 3, 30, 144),
    };
    assert!(rt; refusal_of(april, last).is_none());
    Ok(())
}

#[test]
fn a_month_has_1_to_32_participants(rt: HostRuntime) {
    assert!(rt; Opening::check(2026, 4, 1).is_ok() && Opening::check(2026, 4, 32).is_ok());
    assert!(rt; Opening::check(2026, 4, 0).is_err() && Opening::check(2026, 4, 33).is_err());
    assert!(rt; Opening::check(2026, 13, 3).is_err());
}
