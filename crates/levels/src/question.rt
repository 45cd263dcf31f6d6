// The questions that a client may ask of a statement, one for each of its seven levels.
// Every number is taken as it is given; a question that the month cannot answer is refused.
use faults::Key;
use ledger::Path;

#[derive(Clone, Copy)]
pub enum Question {
    // What came by one path to a key.
    Subtotal {
        path: Path,
        key: Key,
    },
    // What stands at a key.
    Interval {
        key: Key,
    },
    Code {
        code: u32,
        participant: u32,
        page: u32,
    },
    Group {
        group: u32,
        participant: u32,
        page: u32,
    },
    Parent {
        parent: u32,
        participant: u32,
        page: u32,
    },
    // All that a participant has on a page.
    Settlement {
        participant: u32,
        page: u32,
    },
    // All that a participant has in the month.
    Month {
        participant: u32,
    },
}
