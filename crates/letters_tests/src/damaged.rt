// One damaged string for each refusal and place.
use crate::samples::{ASK, Damage, LIST, OFFER, check_damages, check_together, refusal};

const IN_HEAD: [Damage; 10] = [
    Damage(0, 0x47, Err((23, 0))),
    Damage(1, 0x4E, Err((23, 0))),
    Damage(2, 0, Err((24, 2))),
    Damage(2, 10, Err((24, 2))),
    Damage(2, 2, Err((25, 0))),
    Damage(2, 3, Err((25, 0))),
    Damage(3, 16, Err((27, 3))),
    Damage(6, 16, Err((27, 6))),
    Damage(7, 0, Err((27, 7))),
    Damage(11, 0, Err((27, 8))),
];

const IN_OFFER: [Damage; 9] = [
    Damage(2, 1, Err((25, 0))),
    Damage(2, 3, Err((25, 0))),
    Damage(3, 1, Err((27, 14))),
    Damage(12, 0x44, Err((26, 12))),
    Damage(13, 0x4D, Err((26, 12))),
    Damage(14, 16, Err((27, 14))),
    Damage(14, 1, Err((27, 14))),
    Damage(15, 0x10, Err((27, 15))),
    Damage(18, 0x78, Err((27, 18))),
];

const IN_LIST: [Damage; 11] = [
    Damage(12, 0x44, Err((26, 12))),
    Damage(14, 16, Err((27, 14))),
    Damage(15, 0x10, Err((27, 15))),
    Damage(18, 0x78, Err((27, 18))),
    Damage(23, 0x4D, Err((26, 22))),
    Damage(24, 16, Err((27, 24))),
    Damage(25, 0x10, Err((27, 25))),
    Damage(28, 0x78, Err((27, 28))),
    Damage(24, 0, Err((28, 22))),
    Damage(14, 3, Err((28, 22))),
    Damage(28, 0x40, Err((28, 12))),
];

#[test]
fn each_damage_alone(rt: HostRuntime) {
    check_damages(&rt, ASK, &IN_HEAD);
    check_damages(&rt, OFFER, &IN_OFFER);
    check_damages(&rt, LIST, &IN_LIST);
}

// From the last refusal to the first: each new damage is told in place of those before it.
const TOGETHER: [Damage; 14] = [
    Damage(28, 0x40, Err((28, 12))),
    Damage(24, 0, Err((28, 22))),
    Damage(28, 0x78, Err((27, 28))),
    Damage(22, 0, Err((26, 22))),
    Damage(18, 0x78, Err((27, 18))),
    Damage(15, 0x10, Err((27, 15))),
    Damage(14, 16, Err((27, 14))),
    Damage(12, 0, Err((26, 12))),
    Damage(11, 0, Err((27, 8))),
    Damage(7, 0, Err((27, 7))),
    Damage(6, 16, Err((27, 6))),
    Damage(3, 16, Err((27, 3))),
    Damage(2, 2, Err((25, 0))),
    Damage(2, 0, Err((24, 2))),
];

#[test]
fn the_first_of_many(rt: HostRuntime) {
    check_together(&rt, LIST, &TOGETHER);
    let unmarked = [0; 12];
    assert_eq!(rt;
        refusal(&unmarked),
        Err((23, 0)),
        "the mark comes before the kind"
    );
    assert_eq!(rt;
        refusal(&unmarked[0..11]),
        Err((22, 0)),
        "too few bytes come first"
    );
}
