// The three parents. Each group of charge codes has one, which says on what kind of page the group stands and whether it
// takes part in rounding.
ghost use Rattle.std.specs.Prelude.{◌≡◌};
ghost use Rattle.tariff.specs.Groups.{NamesParent, groups_with, parent_number, parent_with};
ghost use Rattle.tariff.specs.Pages.{kind_of_parent};

use crate::page_kind::PageKind;

#[derive(Clone, Copy, PartialEq, Eq, Debug)]
pub enum Parent {
    // The groups of a day that take part in rounding.
    DailyRounded = 1,
    // The groups of the month.
    Monthly = 2,
    // The groups of a day that stay out of rounding.
    DailyUnrounded = 3,
}

// A number that no parent has.
#[derive(Clone, Copy, PartialEq, Eq, Debug)]
pub struct NoSuchParent(pub u32);

impl TryFrom<u32> for Parent {
    type Error = NoSuchParent;

    ghost try_from_gives = { NamesParent };

    fn try_from(number: u32) -> Result<Parent, NoSuchParent> {
        match number {
            1 => Ok(Parent::DailyRounded),
            2 => Ok(Parent::Monthly),
            3 => Ok(Parent::DailyUnrounded),
            _ => Err(NoSuchParent(number)),
        }
    }
}

impl From<Parent> for u32 {
    ghost from_gives = { λ parent n. n ≡ parent_number parent };

    fn from(parent: Parent) -> u32 {
        parent as u32
    }
}

impl Parent {
    // The kind of page that its groups stand on.
    pub fn page_kind(self) -> PageKind
        ensures { result ≡ kind_of_parent self }
    {
        match self {
            Parent::Monthly => PageKind::Month,
            Parent::DailyRounded | Parent::DailyUnrounded => PageKind::Day,
        }
    }

    // The parent that has a group.
    pub(crate) fn with_group(group: u32) -> Option<Parent>
        ensures { result ≡ parent_with group }
    {
        match group {
            12 | 13 | 15 => Some(Parent::DailyUnrounded),
            1..=26 => Some(Parent::DailyRounded),
            27..=34 | 36 => Some(Parent::Monthly),
            _ => None,
        }
    }

    // Its groups, ascending.
    pub(crate) fn groups(self) -> &'static [u32]
        ensures { result.now ≡ groups_with self }
    {
        match self {
            Parent::DailyRounded => &[
                1, 2, 3, 4, 5, 6, 7, 8, 9, 10, 11, 14, 16, 17, 18, 19, 20, 21, 22, 23, 24, 25, 26,
            ],
            Parent::Monthly => &[27, 28, 29, 30, 31, 32, 33, 34, 36],
            Parent::DailyUnrounded => &[12, 13, 15],
        }
    }
}
