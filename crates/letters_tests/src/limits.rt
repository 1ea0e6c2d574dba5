// The limits at their edges, and lists of 2 and 16.
use crate::samples::{ASK, Damage, LIST, OFFER, check_damages, long_letter, refusal};
use letters::{ENTRY_LEN, HEAD_LEN, Kind, entries_in, read};
use std::process::Abort;
use std::test::Fail;

const LAWFUL_IN_HEAD: [Damage; 7] = [
    Damage(3, 15, Ok(())),
    Damage(4, 0xFF, Ok(())),
    Damage(5, 0x00, Ok(())),
    Damage(6, 15, Ok(())),
    Damage(7, 255, Ok(())),
    Damage(8, 0xFF, Ok(())),
    Damage(11, 0xFF, Ok(())),
];

#[test]
fn widest_head(rt: HostRuntime) {
    check_damages(&rt, ASK, &LAWFUL_IN_HEAD);
}

#[test]
fn widest_wish(rt: HostRuntime) {
    let mut bytes = *OFFER;
    bytes[15..18].copy_from_slice(&[0x0F, 0x42, 0x40]);
    assert_eq!(rt; refusal(&bytes), Ok(()), "a wish of 1,000,000");
    bytes[17] = 0x41;
    assert_eq!(rt; refusal(&bytes), Err((27, 15)), "a wish of 1,000,001");
}

#[test]
fn widest_shelf(rt: HostRuntime) {
    let mut bytes = *OFFER;
    bytes[18..22].copy_from_slice(&[0x77, 0x35, 0x94, 0x00]);
    assert_eq!(rt; refusal(&bytes), Ok(()), "a shelf of 2,000,000,000");
    bytes[21] = 0x01;
    assert_eq!(rt; refusal(&bytes), Err((27, 18)), "a shelf of 2,000,000,001");
}

#[test]
fn widest_sum(rt: HostRuntime) {
    let mut bytes = *LIST;
    bytes[18..22].copy_from_slice(&[0x3B, 0x9A, 0xC9, 0xFF]);
    assert_eq!(rt; refusal(&bytes), Ok(()), "999,999,999 and 1");
    bytes[31] = 0x02;
    assert_eq!(rt; refusal(&bytes), Err((28, 12)), "999,999,999 and 2");
}

// A List of so many entries is read, each at its place.
fn check_list(rt: &impl Abort, count: usize) -> Result<(), Fail> {
    assert!(rt; count <= 16);
    let bytes = long_letter(3);
    let letter = read(&bytes[0..HEAD_LEN + ENTRY_LEN * count])?;
    assert_eq!(rt; letter.kind(), Kind::List);
    for (index, (place, entry)) in (0..count).zip(letter.entries()) {
        assert_eq!(rt; usize::from(entry.depot), index);
        assert_eq!(rt; place, HEAD_LEN + ENTRY_LEN * usize::from(entry.depot));
    }
    assert_eq!(rt; letter.entries().take(count + 1).count(), count);
    let entries = entries_in(&bytes[HEAD_LEN..HEAD_LEN + ENTRY_LEN * count]);
    assert_eq!(rt; entries.as_slice().len(), count);
    Ok(())
}

#[test]
fn lists(rt: HostRuntime) -> Result<(), Fail> {
    check_list(&rt, 2)?;
    check_list(&rt, 3)?;
    check_list(&rt, 15)?;
    check_list(&rt, 16)
}
