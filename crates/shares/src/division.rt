// A division: what is left of an amount and weights once a rule has taken them, always within the limits.
// The rules work on the amount's size and put its sign back after. Within the limits every product of a size and
// a part stays below 2^63, so 64 bits suffice.
ghost use Rattle.std.specs.Prelude.{◌≡◌, ◌*◌, ◌/◌, ◌%◌, ◌^◌, ◌<◌, ◌≤◌, pos, int_lt, unsigned_abs};
ghost use Rattle.shares.specs.Nearest.{rounded};
ghost use Rattle.shares.specs.Sizes.{signed};
ghost use Rattle.shares.specs.Weights.{amount_limit, weight_limit};

#[derive(Clone, Copy)]
pub struct Division {
    pub amount: i64,
    pub total: u64,
    pub ghost amount_within: { unsigned_abs amount ≤ amount_limit },
    pub ghost total_within: { total ≤ weight_limit },
}

impl Division {
    // The amount without its sign.
    pub(crate) fn size(self) -> u64
        ensures { result ≡ unsigned_abs self.amount }
    {
        self.amount.unsigned_abs()
    }

    // That a part is within the total ties two values, so each that takes a part asks it.
    // The part rounded down.
    pub(crate) fn rounded_down(self, part: u64) -> u64
        requires { part ≤ self.total }
        ensures value { result ≡ unsigned_abs self.amount * part / self.total }
        ensures within { result ≤ unsigned_abs self.amount }
    {
        (self.size() * part).checked_div(self.total).unwrap_or(0)
    }

    // What rounding down leaves of the part.
    pub(crate) fn remainder(self, part: u64) -> u64
        requires { part ≤ self.total }
        ensures value { result ≡ unsigned_abs self.amount * part % self.total }
        ensures within { result ≤ self.total }
    {
        (self.size() * part).checked_rem(self.total).unwrap_or(0)
    }

    // The part to the nearest cent, halves up.
    pub(crate) fn nearest(self, part: u64) -> u64
        requires { part ≤ self.total }
        ensures { result ≡ rounded (unsigned_abs self.amount * part) self.total }
    {
        (2 * (self.size() * part) + self.total)
            .checked_div(2 * self.total)
            .unwrap_or(0)
    }

    // A size of this division with the sign put back.
    pub(crate) fn signed(self, size: u64) -> i64
        requires { size < 2 ^ 63 }
        ensures { result ≡ signed (int_lt self.amount (pos 0)) size }
    {
        let plain = size as i64;
        if self.amount < 0 { -plain } else { plain }
    }
}
