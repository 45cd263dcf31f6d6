// Looking up charge codes: the group of a code, by binary search, and the codes of a group, by its number.
// A table is searched as it is given; that the present one ascends is shown where it is handed in.
ghost use Rattle.std.specs.Prelude.{◌≡◌, ◌<◌, IfErr, IfOk, length};
ghost use Rattle.tariff.specs.Charges.{Ascending, code_at, codes_in, group_in};
ghost use Rattle.tariff.specs.Table.{charges};

use crate::table::{Entry, code_rows};

// The place of a code in a table, or where the search for it ended.
fn place_of(table: &[Entry], code: u32) -> Result<usize, usize>
    requires { Ascending table.now }
    ensures found { IfOk result (λ place. (place < length table.now) × (code_at table.now place ≡ code)) }
    ensures absent { IfErr result (λ _. group_in table.now code ≡ None) }
{
    table.binary_search_by_key(&code, |entry| entry.0)
}

// The group of a code in a table.
#[tactic(auto, using(crate::proofs::Lookup::found_at))]
pub(crate) fn find(table: &[Entry], code: u32) -> Option<u32>
    requires { Ascending table.now }
    ensures { result ≡ group_in table.now code }
{
    match place_of(table, code) {
        Ok(place) => Some(table[place].1),
        Err(_) => None,
    }
}

// The codes of a group, ascending; none for a number that is no group.
pub(crate) fn codes_in_group(group: u32) -> &'static [u32]
    ensures { result.now ≡ codes_in charges group }
{
    code_rows().get(group as usize).copied().unwrap_or(&[])
}
