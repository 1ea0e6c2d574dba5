// Letters to test with, and what reading answers to bytes.
use letters::{ENTRY_LEN, HEAD_LEN, Unread, read};
use std::process::Abort;

/// An Ask by depot 2 of five, number 1, Level.
pub(crate) const ASK: &[u8; 12] = b"\x48\x4F\x01\x02\x00\x1B\x02\x01\x00\x00\x00\x01";

/// The Offer to it by depot 0, shelf 4, wish 0.
pub(crate) const OFFER: &[u8; 22] = b"\x48\x4F\x02\x00\x00\x04\x02\x01\x00\x00\x00\x01\
    \x45\x4E\x00\x00\x00\x00\x00\x00\x00\x04";

/// A List by depot 2: depot 0 with shelf 4 and wish 0, depot 2 with shelf 1 and wish 6.
pub(crate) const LIST: &[u8; 32] = b"\x48\x4F\x03\x02\x00\x01\x02\x01\x00\x00\x00\x01\
    \x45\x4E\x00\x00\x00\x00\x00\x00\x00\x04\
    \x45\x4E\x02\x00\x00\x06\x00\x00\x00\x01";

/// The number and the place that a fault of reading tells.
pub(crate) fn told(unread: Unread) -> (u8, usize) {
    (unread.why.number(), unread.place)
}

/// What reading answers to bytes: nothing, or the number and the place of the refusal.
pub(crate) fn refusal(bytes: &[u8]) -> Result<(), (u8, usize)> {
    read(bytes).map(|_| ()).map_err(told)
}

/// A place of a letter, the byte put there, and what reading answers then.
#[derive(Clone, Copy)]
pub(crate) struct Damage(pub usize, pub u8, pub Result<(), (u8, usize)>);

/// Checks that damages put in one after another, each on top of those before, are each answered by its refusal.
pub(crate) fn check_together<const N: usize>(
    rt: &impl Abort,
    letter: &[u8; N],
    damages: &[Damage],
) {
    let mut bytes = *letter;
    for Damage(place, byte, answer) in damages {
        assert!(rt; *place < bytes.len());
        bytes[*place] = *byte;
        assert_eq!(rt; refusal(&bytes), *answer);
    }
}

/// Checks that the letter is read, and that each damage alone is answered by its refusal.
pub(crate) fn check_damages<const N: usize>(rt: &impl Abort, letter: &[u8; N], damages: &[Damage]) {
    assert_eq!(rt; refusal(letter), Ok(()));
    for damage in damages {
        check_together(rt, letter, &[*damage]);
    }
}

/// A letter of a kind with room for eighteen entries, of depots 0, 1, 2 and so on: longer than any lawful letter.
pub(crate) fn long_letter(kind: u8) -> [u8; 200] {
    let mut bytes = [0; 200];
    bytes[0..HEAD_LEN].copy_from_slice(ASK);
    bytes[2] = kind;
    bytes[3] = 0;
    for (depot, entry) in (0..18).zip(bytes[HEAD_LEN..].chunks_exact_mut(ENTRY_LEN)) {
        entry[0..3].copy_from_slice(&[0x45, 0x4E, depot]);
    }
    bytes
}
