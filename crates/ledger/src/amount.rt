// A kind of amount: what a book can add up.
// What the kind is stands in one ghost record, and its laws in another; a book is proved from these alone.
// To add a kind, give both records and the three functions: every book then keeps it as it is.
ghost use Rattle.std.specs.Prelude.{◌≡◌, ◌+◌, ◌^◌, ◌<◌, ◌+ℤ◌, unsigned_abs};
ghost use Rattle.ledger.specs.Amounts.{Kind, Laws};

pub trait Amount: Copy {
    ghost kind: { Kind Self };

    ghost laws: { Laws kind };

    // No `Default`: a bound on that could not say that it is the nought of the kind.
    fn nought() -> Self
        ensures { result ≡ kind.nought };

    // The sum wherever it fits; beyond that an answer is still given, and nothing is said of it.
    fn join(self, other: Self) -> Self
        ensures { kind.size self + kind.size other < 2 ^ 63 → result ≡ kind.joined self other };

    fn fits_line(self) -> bool
        ensures { result ≡ kind.allowed self };
}

// The numbers that kinds are made of: added exactly wherever the sum fits.
pub(crate) fn add(x: i64, y: i64) -> i64
    ensures { unsigned_abs x + unsigned_abs y < 2 ^ 63 → result ≡ x +ℤ y }
{
    x.saturating_add(y)
}
