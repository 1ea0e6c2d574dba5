// Every kind at every length.
use crate::samples::{long_letter, refusal};

// What reading answers to the front of a long letter, given what its kind can have.
fn expected(kind: u8, len: usize) -> Result<(), (u8, usize)> {
    if len < 12 {
        return Err((22, 0));
    }
    let fits = match kind {
        2 => len == 22,
        3 => (32..=172).contains(&len) && len % 10 == 2,
        _ => len == 12,
    };
    if fits { Ok(()) } else { Err((25, 0)) }
}

#[test]
fn every_length(rt: HostRuntime) {
    for kind in 1..10 {
        let bytes = long_letter(kind);
        for len in 0..201 {
            assert_eq!(rt; refusal(&bytes[0..len]), expected(kind, len));
        }
    }
}
