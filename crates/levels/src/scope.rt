// A scope: which of a month's keys a total is over.
// Each part is given or left open; the seven levels, a page's imbalance and what an allocation offsets are all scopes.
ghost use Rattle.std.specs.Prelude.{◌≡◌};
ghost use Rattle.levels.specs.Questions.{key_scope, page_scope};

use faults::Key;
use tariff::PageKind;

// Which charge codes.
#[derive(Clone, Copy)]
pub enum Codes {
    Every,
    Only(u32),
    Group(u32),
    // By its number, as a question gives it: any number can be asked about.
    Parent(u32),
    // Those of the groups that are neutral on a kind of page.
    Neutral(PageKind),
    // Those that the allocation code offsets.
    Offset,
}

#[derive(Clone, Copy)]
pub struct Scope {
    pub codes: Codes,
    pub participant: Option<u32>,
    pub page: Option<u32>,
    pub interval: Option<u32>,
}

impl Scope {
    // One key alone.
    pub(crate) fn of_key(key: Key) -> Scope
        ensures { result ≡ key_scope key }
    {
        Scope {
            codes: Codes::Only(key.code),
            participant: Some(key.participant),
            page: Some(key.page),
            interval: Some(key.interval),
        }
    }

    // What a participant has in some codes on a page.
    pub(crate) fn on_page(codes: Codes, participant: u32, page: u32) -> Scope
        ensures { result ≡ page_scope codes participant page }
    {
        Scope {
            codes,
            participant: Some(participant),
            page: Some(page),
            interval: None,
        }
    }
}
