// What a line of a script asks for. Every number is taken as it was written: whether the rules
// turn it down is not decided here.

use faults::Key;
use levels::Question;
use shares::NamedRule;

// The places of a month's two journals.
#[derive(Clone, Copy)]
pub struct Places {
    pub money: u32,
    pub demand: u32,
}

// The month that an exercise opens.
#[derive(Clone, Copy)]
pub struct Opening {
    pub year: u32,
    pub month: u32,
    pub participants: u32,
    pub rule: NamedRule,
    pub places: Places,
}

// A call on the open month. `places` is the length of the shares buffer that is handed in.
#[derive(Clone, Copy)]
pub enum Call {
    Post {
        key: Key,
        cents: i64,
    },
    Meter {
        participant: u32,
        page: u32,
        interval: u32,
        kwh: i64,
    },
    Adjust {
        key: Key,
        cents: i64,
    },
    Allocate {
        code: u32,
        page: u32,
        interval: u32,
        places: u32,
    },
    Strike {
        page: u32,
    },
    Allot {
        page: u32,
        places: u32,
    },
    Withdraw {
        page: u32,
    },
}

// A rule put to work on an amount by weights, which are the words of the line from the fourth on.
#[derive(Clone, Copy)]
pub struct Sharing {
    pub rule: NamedRule,
    pub amount: i64,
}

#[derive(Clone, Copy)]
pub enum Command {
    Open(Opening),
    Call(Call),
    // A question of a level, which changes nothing.
    Ask(Question),
    // The trial balance.
    Balance,
    Share(Sharing),
}
