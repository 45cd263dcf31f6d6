// Cases that a clerk would try, with figures worked out by hand, and small code over any book.
ghost use Rattle.std.specs.Prelude.{◌≡◌, suc, ◌≤◌, ◌||◌, IfOk, if◌then◌else◌};
ghost use Rattle.ledger.specs.Books.{post_refusal};
ghost use Rattle.faults.specs.Keys.{same};
ghost use Rattle.ledger.specs.Kinds.{cents};
ghost use Rattle.ledger.specs.Layers.{layer, own, adjusted_at};
ghost use Rattle.ledger.specs.Totals.{total as total_of, covers};

use crate::adjust_fault::AdjustFault;
use crate::adjustments::Adjustments;
use crate::amount::Amount;
use crate::balance::Balance;
use crate::book::Book;
use crate::cents::Cents;
use crate::extent::Extent;
use crate::journal::Journal;
use crate::kwh::Kwh;
use crate::line::Line;
use crate::path::Path;
use crate::span::Span;
use faults::{Cause, Fault, Key, Layer, Refusal};
use std::test::Fail;

// Code over any book: a post, and a total after it.
fn post_then_total<B: Book>(
    book: &mut B,
    key: Key,
    amount: B::Amount,
    extent: Extent,
) -> Result<B::Amount, B::Fault>
    ensures { IfOk result (λ t. t ≡ B.Amount.Amount.kind.joined
        (total_of B.Amount.Amount.kind (B.means book.old).amount extent)
        (if covers extent key then amount else B.Amount.Amount.kind.nought)) }
{
    book.post(key, amount)?;
    Ok(book.total(extent))
}

// Code over any book: a total, asked in two parts of the pages.
fn total_in_parts<B: Book>(book: &B, extent: Extent, cut: u32) -> B::Amount
    requires { (extent.pages.first ≤ cut) × (suc cut ≤ extent.pages.last) }
    ensures { result ≡ total_of B.Amount.Amount.kind (B.means book.now).amount extent }
{
    let early = book.total(Extent {
        pages: Span {
            first: extent.pages.first,
            last: cut,
        },
        ..extent
    });
    let late = book.total(Extent {
        pages: Span {
            first: cut + 1,
            last: extent.pages.last,
        },
        ..extent
    });
    early.join(late)
}

// Code over any layer: an adjustment, and what its path then has and marks.
fn adjust_then_ask<B: Book<Amount = Cents>>(
    money: &mut Adjustments<B>,
    key: Key,
    amount: Cents,
    extent: Extent,
    asked: Key,
) -> Result<(Cents, bool), AdjustFault<B::Fault>>
    ensures path { IfOk result (λ t. t.0 ≡ cents.joined
        (total_of cents (own (layer B.Book money.old)) extent)
        (if covers extent key then amount else cents.nought)) }
    ensures mark { IfOk result (λ t. t.1
        ≡ (adjusted_at (layer B.Book money.old).held asked || same key asked)) }
{
    money.adjust(key, amount)?;
    Ok((
        money.path_total(Path::Adjustment, extent),
        money.adjusted_at(asked),
    ))
}

// Code over any book: how a post is answered.
fn refusal_of<B: Book>(book: &mut B, key: Key, amount: B::Amount) -> Option<Refusal>
    ensures { result ≡ post_refusal B.Amount.Amount.kind (B.means book.old) key amount }
{
    match book.post(key, amount) {
        Ok(()) => None,
        Err(fault) => Some(fault.refusal()),
    }
}

// All that a book has of code 6470.
fn everything<B: Book>(book: &B) -> B::Amount {
    book.total(cube(Span::new(0, 144)))
}

// Code 6470 in the same span of participants, of pages and of intervals.
fn cube(span: Span) -> Extent {
    Extent {
        code: 6470,
        participants: span,
        pages: span,
        intervals: span,
    }
}

fn at(participant: u32, page: u32, interval: u32) -> Key {
    Key {
        code: 6470,
        participant,
        page,
        interval,
    }
}

fn by_book(cause: Cause, place: Key) -> Refusal {
    Refusal {
        cause,
        layer: Layer::Book,
        place,
    }
}

fn sides(debtors: i64, creditors: i64) -> Balance {
    Balance { debtors, creditors }
}

#[test]
fn posts_add_up_over_the_spans_asked_for(rt: HostRuntime) -> Result<(), Fail> {
    let mut places = [Line::<Cents>::blank(); 4];
    let mut journal = Journal::new(&mut places);
    journal.post(at(1, 1, 1), Cents(-100))?;
    journal.post(at(1, 1, 2), Cents(30))?;
    assert_eq!(rt; everything(&journal), Cents(-70));
    let pages = |first, last| Extent {
        pages: Span::new(first, last),
        ..cube(Span::only(1))
    };
    assert_eq!(rt; journal.total(pages(1, 1)), Cents(-100));
    assert_eq!(rt; journal.total(pages(2, 1)), Cents(0));
    assert_eq!(rt;
        post_then_total(&mut journal, at(1, 2, 1), Cents(5), pages(1, 2))?,
        Cents(-95)
    );
    assert_eq!(rt; total_in_parts(&journal, pages(1, 3), 1), Cents(-95));
    Ok(())
}

#[test]
fn a_refused_reading_leaves_the_journal(rt: HostRuntime) -> Result<(), Fail> {
    let mut places = [Line::<Kwh>::blank(); 1];
    let mut journal = Journal::new(&mut places);
    let stranger = by_book(Cause::UnknownParticipant, at(33, 1, 1));
    assert_eq!(rt;
        refusal_of(&mut journal, at(33, 1, 1), Kwh(100_000_001)),
        Some(stranger)
    );
    journal.post(at(1, 1, 1), Kwh(-100_000_000))?;
    let full = by_book(Cause::NoFreeLine, at(2, 1, 1));
    assert_eq!(rt; refusal_of(&mut journal, at(2, 1, 1), Kwh(1)), Some(full));
    assert_eq!(rt; everything(&journal), Kwh(-100_000_000));
    Ok(())
}

#[test]
fn the_sides_of_a_balance_are_not_set_off(rt: HostRuntime) -> Result<(), Fail> {
    let mut places = [Line::<Balance>::blank(); 2];
    let mut journal = Journal::new(&mut places);
    journal.post(at(1, 0, 0), sides(66, 0))?;
    assert!(rt; journal.post(at(1, 0, 0), sides(5, -1)).is_err());
    journal.post(at(2, 0, 0), sides(0, 67))?;
    assert_eq!(rt; everything(&journal), sides(66, 67));
    Ok(())
}

#[test]
fn adjustments_pile_up_over_a_journal(rt: HostRuntime) -> Result<(), Fail> {
    let mut places = [Line::<Cents>::blank(); 1];
    let mut pile = Adjustments::new(Adjustments::new(Journal::new(&mut places)));
    pile.post(at(1, 1, 1), Cents(1000))?;
    assert_eq!(rt; pile.adjust(at(1, 1, 1), Cents(-250))?, 1);
    assert_eq!(rt; everything(&pile), Cents(750));
    assert_eq!(rt;
        adjust_then_ask(
            &mut pile,
            at(2, 1, 1),
            Cents(0),
            cube(Span::only(1)),
            at(2, 1, 1),
        )?,
        (Cents(-250), true)
    );
    let full = by_book(Cause::NoFreeLine, at(3, 1, 1));
    assert_eq!(rt; refusal_of(&mut pile, at(3, 1, 1), Cents(1)), Some(full));
    Ok(())
}
