// What a refusal says to a reader, and which keys are one place.
use crate::{Cause, Key, Layer, Refusal, equality_is_sameness};
use std::test::Fail;

#[test]
fn a_refusal_says_number_layer_place_and_meaning(rt: HostRuntime) -> Result<(), Fail> {
    let place = Key {
        code: 6471,
        participant: 4,
        page: 1,
        interval: 144,
    };
    let refusal = Refusal {
        cause: Cause::NotInTable,
        layer: Layer::Month,
        place,
    };
    let said = format!(in rt.alloc(); "{refusal}")?;
    assert_eq!(rt;
        said.as_str(),
        "2 layer 1 at 6471 4 1 144: code, group or parent not in the table"
    );
    let zeros = format!(in rt.alloc(); "{}", Key::NOWHERE)?;
    assert_eq!(rt; zeros.as_str(), "0 0 0 0");
    Ok(())
}

#[test]
fn keys_are_one_place_in_all_four_parts(rt: HostRuntime) {
    let key = Key {
        code: 6470,
        participant: 32,
        page: 1,
        interval: 1,
    };
    assert!(rt; equality_is_sameness(key, key));
    assert!(rt; !equality_is_sameness(key, Key { interval: 2, ..key }));
    assert!(rt; key.has_participant() && !Key::NOWHERE.has_participant());
}
