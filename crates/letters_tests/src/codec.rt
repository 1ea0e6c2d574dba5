// The entry codec by itself, kinds by their numbers, and the layers of a fault.
use crate::samples::{ASK, OFFER, told};
use entries::Entry;
use letters::{
    Fault, Kind, UnknownKind, Unread, Unreadable, check_entry, entry_at, entry_bytes, read,
};

const ENTRY: Entry = Entry {
    depot: 7,
    shelf: 0x01020304,
    wish: 0x0A0B0C,
};

// What the check of one entry answers: nothing, or the number and the place of the refusal.
fn refusal(bytes: &[u8], owner: Option<u8>) -> Result<(), (u8, usize)> {
    check_entry(bytes, 400, owner).map_err(told)
}

#[test]
fn an_entry_alone(rt: HostRuntime) {
    let bytes = entry_bytes(ENTRY);
    assert_eq!(rt; bytes, [0x45, 0x4E, 7, 0x0A, 0x0B, 0x0C, 1, 2, 3, 4]);
    assert_eq!(rt; entry_at(&bytes), Some(ENTRY));
    assert_eq!(rt; entry_at(&bytes[1..]), None);
    assert_eq!(rt; refusal(&bytes, None), Ok(()));
    assert_eq!(rt; refusal(&bytes, Some(7)), Ok(()));
    assert_eq!(rt; refusal(&bytes, Some(8)), Err((27, 402)));
    assert_eq!(rt; refusal(&bytes[0..9], None), Err((25, 400)));
    assert_eq!(rt; refusal(&bytes[1..], None), Err((25, 400)));
}

#[test]
fn kinds_by_number(rt: HostRuntime) {
    assert_eq!(rt; Kind::try_from(6), Ok(Kind::Settle));
    assert_eq!(rt; Kind::try_from(10), Err(UnknownKind(10)));
}

// A handover that takes an Ask alone.
fn take(bytes: &[u8]) -> Result<Kind, Fault<u8>> {
    let letter = read(bytes)?;
    match letter.kind() {
        Kind::Ask => Ok(Kind::Ask),
        _ => Err(Fault::Handover(33)),
    }
}

#[test]
fn layers(rt: HostRuntime) {
    let ask = *ASK;
    let short = Unread {
        why: Unreadable::Short,
        place: 0,
    };
    assert_eq!(rt; short.why.number(), 22);
    assert_eq!(rt; take(&ask), Ok(Kind::Ask));
    assert_eq!(rt; take(OFFER), Err(Fault::Handover(33)));
    assert_eq!(rt; take(&ask[0..11]), Err(Fault::Reading(short)));
}
