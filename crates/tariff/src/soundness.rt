// The tariff as a whole: theorems, each on a function that does nothing else.
// Callers need not call them; what they promise stands for every month.
ghost use Rattle.std.specs.Prelude.{◌≡◌};
ghost use Rattle.tariff.specs.Groups.{last_group};
ghost use Rattle.tariff.specs.Pages.{allocation_code, allocation_group};
ghost use Rattle.tariff.specs.Sound.{TariffSound};

use crate::table::{ALLOCATION_CODE, ALLOCATION_GROUP, LAST_GROUP};

// The tariff of every month fits together.
pub fn tariff_is_sound()
    ensures { TariffSound }
{}

// The public constants are the numbers of the rules.
pub fn constants_agree()
    ensures code { ALLOCATION_CODE ≡ allocation_code }
    ensures group { ALLOCATION_GROUP ≡ allocation_group }
    ensures last { LAST_GROUP ≡ last_group }
{}
