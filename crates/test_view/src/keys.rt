// The values of keys.

use crate::shared::{MOST, holds, is_at, parsed};

// {1: h'00ff', -1: [1.5], "a": 7, "a": 8}
static CLAIMS: &str = "a4014200ff2081f93e00616107616108";

// {_ 24: 1, (_ "a", "b"): 2, -25: 3, 24: 4}, and each number has a longer title than its shortest one
static LONGER: &str = "bf190018017f61616162ff02390018031a0000001804ff";

#[test]
fn values_of_keys(rt: HostRuntime) {
    let mut space = [0; MOST];
    let Some(item) = parsed(&rt, CLAIMS, &mut space) else {
        return holds(&rt, false, CLAIMS);
    };
    holds(&rt, is_at(item.get_positive(1), &[0x42, 0, 0xff]), "1");
    holds(
        &rt,
        is_at(item.get_negative(0), &[0x81, 0xf9, 0x3e, 0]),
        "-1",
    );
    holds(
        &rt,
        is_at(item.get(&[0x20]), &[0x81, 0xf9, 0x3e, 0]),
        "-1, by its bytes",
    );
    holds(
        &rt,
        is_at(item.get_text("a"), &[7]),
        "the first pair with a",
    );
    holds(
        &rt,
        is_at(item.get(&[0x61, 0x61]), &[7]),
        "the same by its bytes",
    );
}

#[test]
fn keys_in_other_spellings(rt: HostRuntime) {
    let mut space = [0; MOST];
    let Some(item) = parsed(&rt, LONGER, &mut space) else {
        return holds(&rt, false, LONGER);
    };
    holds(&rt, is_at(item.get_positive(24), &[1]), "24");
    holds(&rt, is_at(item.get_text("ab"), &[2]), "ab");
    holds(&rt, is_at(item.get_negative(24), &[3]), "-25");
    holds(
        &rt,
        is_at(item.get(&[0x1a, 0, 0, 0, 0x18]), &[4]),
        "24, by its bytes",
    );
}

#[test]
fn keys_that_are_not_there(rt: HostRuntime) {
    let mut space = [0; MOST];
    for digits in [CLAIMS, LONGER] {
        let Some(item) = parsed(&rt, digits, &mut space) else {
            return holds(&rt, false, digits);
        };
        let is_none = item.get_positive(0).is_none()
            && item.get_negative(1).is_none()
            && item.get_text("abc").is_none()
            && item.get_text("b").is_none()
            && item.get_text("").is_none()
            && item.get(&[]).is_none()
            && item.get(&[0x18, 0x18]).is_none();
        holds(&rt, is_none, digits);
    }
    // An array has no keys.
    let Some(item) = parsed(&rt, "820102", &mut space) else {
        return holds(&rt, false, "an array");
    };
    holds(
        &rt,
        item.get_positive(1).is_none() && item.get(&[1]).is_none(),
        "an array",
    );
}
