// The worked letters, written and read, and what writing does to a buffer.
use crate::samples::{ASK, LIST, OFFER};
use entries::{Depots, Entries, Entry};
use letters::{Head, Kind, Message, read, write};
use std::process::Abort;
use std::test::Fail;

// Writes the message into the first `len` bytes of a longer buffer, and checks the answer and the buffer.
fn check_buffer(rt: &impl Abort, message: &Message, bytes: &[u8], len: usize) {
    assert!(rt; len <= 40);
    let mut buffer = [0xEE; 40];
    let mut expected = [0xEE; 40];
    let answer = if bytes.len() <= len {
        expected[0..bytes.len()].copy_from_slice(bytes);
        Ok(bytes.len())
    } else {
        Err(34)
    };
    assert_eq!(rt;
        write(message, &mut buffer[0..len]).map_err(|unwritten| unwritten.number()),
        answer
    );
    assert!(rt; buffer == expected);
}

// Writes the message into buffers of every length up to 40.
fn check_written(rt: &impl Abort, message: &Message, bytes: &[u8]) {
    for len in 0..41 {
        check_buffer(rt, message, bytes, len);
    }
}

#[test]
fn ask(rt: HostRuntime) -> Result<(), Fail> {
    let mut message = Message::blank();
    let head = Head {
        sender: 2,
        to: Depots(0x1B),
        leader: 2,
        code: 1,
        number: 1,
    };
    message.set(Kind::Ask, head, &[]);
    check_written(&rt, &message, ASK);
    assert_eq!(rt; read(ASK)?.head(), head);
    Ok(())
}

#[test]
fn offer(rt: HostRuntime) -> Result<(), Fail> {
    let mut message = Message::blank();
    let head = Head {
        sender: 0,
        to: Depots(0x04),
        leader: 2,
        code: 1,
        number: 1,
    };
    let entry = Entry {
        depot: 0,
        shelf: 4,
        wish: 0,
    };
    message.set(Kind::Offer, head, &[entry]);
    check_written(&rt, &message, OFFER);
    assert_eq!(rt; read(OFFER)?.entries().next(), Some((12, entry)));
    Ok(())
}

#[test]
fn list(rt: HostRuntime) {
    let mut message = Message::blank();
    let head = Head {
        sender: 2,
        to: Depots(0x01),
        leader: 2,
        code: 1,
        number: 1,
    };
    let mut items = [Entry {
        depot: 0,
        shelf: 4,
        wish: 0,
    }; 16];
    items[1] = Entry {
        depot: 2,
        shelf: 1,
        wish: 6,
    };
    message.set(Kind::List, head, Entries::counted(items, 2).as_slice());
    check_written(&rt, &message, LIST);
}
