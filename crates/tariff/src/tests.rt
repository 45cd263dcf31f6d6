// Cases that a person would try at the desk.
// Each answer was worked out by hand from the rules.
use crate::{NoSuchParent, PageKind, Parent, TradingMonth};
use std::test::Fail;

fn month(year: u32, month: u32) -> Result<TradingMonth, Fail> {
    Ok(TradingMonth::new(year, month).ok_or("not traded")?)
}

#[test]
fn months_are_traded_from_2009_to_2099(rt: HostRuntime) {
    assert!(rt; TradingMonth::new(2009, 1).is_some() && TradingMonth::new(2099, 12).is_some());
    assert!(rt; TradingMonth::new(2008, 12).is_none() && TradingMonth::new(2100, 1).is_none());
    assert!(rt; TradingMonth::new(2026, 0).is_none() && TradingMonth::new(2026, 13).is_none());
}

#[test]
fn february_has_its_leap_day_every_fourth_year(rt: HostRuntime) -> Result<(), Fail> {
    assert_eq!(rt; month(2024, 2)?.days(), 29);
    assert_eq!(rt; month(2026, 2)?.days(), 28);
    assert_eq!(rt; month(2096, 2)?.days(), 29);
    assert_eq!(rt; month(2099, 2)?.days(), 28);
    Ok(())
}

#[test]
fn april_has_30_days_of_144_intervals(rt: HostRuntime) -> Result<(), Fail> {
    let april = month(2026, 4)?;
    assert_eq!(rt; april.days(), 30);
    assert!(rt; april.intervals(30) == 144 && april.intervals(31) == 0);
    assert!(rt; april.has_interval(PageKind::Day, 30, 144));
    assert!(rt;
        !april.has_interval(PageKind::Day, 30, 145) && !april.has_interval(PageKind::Day, 31, 1)
    );
    assert!(rt;
        april.has_interval(PageKind::Month, 0, 0) && !april.has_interval(PageKind::Month, 0, 1)
    );
    Ok(())
}

#[test]
fn a_code_of_each_parent(rt: HostRuntime) -> Result<(), Fail> {
    let april = month(2026, 4)?;
    assert_eq!(rt; april.group_of(6470), Some(4));
    assert_eq!(rt; april.parent_of(4), Some(Parent::DailyRounded));
    assert_eq!(rt; april.group_of(4999), Some(36));
    assert_eq!(rt; april.parent_of(36), Some(Parent::Monthly));
    assert_eq!(rt; april.group_of(6301), Some(12));
    assert_eq!(rt; april.parent_of(12), Some(Parent::DailyUnrounded));
    assert_eq!(rt; april.page_kind_of_code(4999), Some(PageKind::Month));
    Ok(())
}

#[test]
fn what_is_not_in_the_table_has_no_group(rt: HostRuntime) -> Result<(), Fail> {
    let april = month(2026, 4)?;
    assert!(rt;
        april.group_of(6051).is_none()
            && april.group_of(0).is_none()
            && april.group_of(69851).is_none()
    );
    assert!(rt; april.parent_of(35).is_none() && april.codes_of(35).is_empty());
    assert!(rt; april.page_kind_of_code(6051).is_none() && april.codes_of(37).is_empty());
    Ok(())
}

#[test]
fn the_codes_of_a_group_ascend(rt: HostRuntime) -> Result<(), Fail> {
    let codes = month(2026, 4)?.codes_of(25);
    assert!(rt; codes.len() == 6);
    assert!(rt; codes[0] == 8071 && codes[1] == 8076 && codes[5] == 8087);
    Ok(())
}

#[test]
fn rounding_stays_out_of_what_it_rounds(rt: HostRuntime) -> Result<(), Fail> {
    let april = month(2026, 4)?;
    assert_eq!(rt; PageKind::Day.rounding_code(), 4989);
    assert_eq!(rt; april.group_of(4989), Some(26));
    assert!(rt; april.is_neutral(25, PageKind::Day) && !april.is_neutral(26, PageKind::Day));
    assert!(rt; april.is_neutral(34, PageKind::Month) && !april.is_neutral(36, PageKind::Month));
    assert!(rt; !april.is_neutral(12, PageKind::Day) && !april.is_neutral(25, PageKind::Month));
    Ok(())
}

#[test]
fn parents_go_by_number(rt: HostRuntime) -> Result<(), Fail> {
    assert_eq!(rt; Parent::try_from(3), Ok(Parent::DailyUnrounded));
    assert_eq!(rt; Parent::try_from(0), Err(NoSuchParent(0)));
    assert_eq!(rt; Parent::try_from(4), Err(NoSuchParent(4)));
    assert_eq!(rt; u32::from(Parent::Monthly), 2);
    assert_eq!(rt; month(2026, 4)?.groups_of(Parent::Monthly).len(), 9);
    Ok(())
}
