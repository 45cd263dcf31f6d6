// Cases that a person would try, on real places.
use crate::{LargestRemainder, NamedRule, Nearest, RuleFault, RunningCarry, ShareRule};
use faults::Fault;
use std::test::Fail;

const DEMANDS: [i64; 4] = [265, 360, 385, 480];

#[test]
fn three_rules_share_the_same_amount(rt: HostRuntime) -> Result<(), Fail> {
    let mut shares = [0; 4];
    Nearest.share(800_000, &DEMANDS, &mut shares)?;
    assert_eq!(rt; shares, [142_282, 193_289, 206_711, 257_718]);
    LargestRemainder.share(-800_000, &DEMANDS, &mut shares)?;
    assert_eq!(rt; shares, [-142_282, -193_289, -206_711, -257_718]);
    RunningCarry.share(800_000, &DEMANDS, &mut shares)?;
    assert_eq!(rt; shares, [142_281, 193_289, 206_711, 257_719]);
    Ok(())
}

#[test]
fn a_name_shares_as_its_rule_does(rt: HostRuntime) -> Result<(), Fail> {
    let mut shares = [0; 4];
    NamedRule::Nearest.share(800_000, &DEMANDS, &mut shares)?;
    assert_eq!(rt; shares, [142_282, 193_289, 206_711, 257_718]);
    NamedRule::LargestRemainder.share(-800_000, &DEMANDS, &mut shares)?;
    assert_eq!(rt; shares, [-142_282, -193_289, -206_711, -257_718]);
    NamedRule::RunningCarry.share(800_000, &DEMANDS, &mut shares)?;
    assert_eq!(rt; shares, [142_281, 193_289, 206_711, 257_719]);
    Ok(())
}

#[test]
fn a_cent_goes_to_the_larger_remainder_and_a_tie_to_the_lower_participant(
    rt: HostRuntime,
) -> Result<(), Fail> {
    let mut shares = [0; 3];
    LargestRemainder.share(1, &[1, 2, 1], &mut shares)?;
    assert_eq!(rt; shares, [0, 1, 0]);
    LargestRemainder.share(2, &[1, 1, 1], &mut shares)?;
    assert_eq!(rt; shares, [1, 1, 0]);
    Ok(())
}

#[test]
fn later_places_stay(rt: HostRuntime) -> Result<(), Fail> {
    let mut shares = [7; 4];
    LargestRemainder.share(1, &[1, 1], &mut shares)?;
    assert_eq!(rt; shares, [1, 0, 7, 7]);
    RunningCarry.share(-3, &[1], &mut shares)?;
    assert_eq!(rt; shares, [-3, 0, 7, 7]);
    Nearest.share(0, &[], &mut shares)?;
    assert_eq!(rt; shares, [-3, 0, 7, 7]);
    Ok(())
}

#[test]
fn refusals_come_in_the_order_of_their_numbers(rt: HostRuntime) {
    let mut shares = [5];
    assert_eq!(rt;
        Nearest.share(100_000_001, &[-1, 1], &mut shares),
        Err(RuleFault::Weights)
    );
    assert_eq!(rt;
        Nearest.share(100_000_001, &[0, 0], &mut shares),
        Err(RuleFault::Amount)
    );
    assert_eq!(rt;
        Nearest.share(1, &[0, 0], &mut shares),
        Err(RuleFault::NoWeight)
    );
    assert_eq!(rt;
        Nearest.share(1, &[1, 1], &mut shares),
        Err(RuleFault::Places)
    );
    assert_eq!(rt; shares, [5]);
}

#[test]
fn a_very_long_slice_is_shared(rt: HostRuntime) -> Result<(), Fail> {
    let mut shares = [9; 10_000];
    LargestRemainder.share(7, &[3; 10_000], &mut shares)?;
    assert_eq!(rt; shares[0], 1);
    assert_eq!(rt; shares[6], 1);
    assert_eq!(rt; shares[7], 0);
    assert_eq!(rt; shares[9_999], 0);
    Ok(())
}

#[test]
fn weights_as_large_as_can_be_are_refused(rt: HostRuntime) {
    let mut shares = [0; 3];
    let weights = [i64::MAX; 3];
    assert_eq!(rt;
        RunningCarry.share(1, &weights, &mut shares),
        Err(RuleFault::Weights)
    );
    assert_eq!(rt; u8::from(RuleFault::Weights.refusal().cause), 7);
}
