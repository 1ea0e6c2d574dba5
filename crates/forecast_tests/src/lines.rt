// Which bytes are a number, which value it has, and what is left.
use text_lines::{Mark, Reader};

// What reading a number from these bytes answers, and whether another byte stands next.
fn read(bytes: &[u8]) -> (Option<u64>, bool, bool) {
    let mut reader = Reader::new(bytes);
    let number = reader.number();
    let blank = reader.passes(Mark::Blank);
    (number, blank, reader.is_done())
}

#[test]
fn numbers(rt: HostRuntime) {
    assert_eq!(rt; read(b"0"), (Some(0), false, true));
    assert_eq!(rt; read(b"7 "), (Some(7), true, true));
    assert_eq!(rt; read(b"10 5"), (Some(10), true, false));
    assert_eq!(rt; read(b"1234567890\n"), (Some(1_234_567_890), false, false));
    assert_eq!(rt; read(b"9999999999"), (Some(9_999_999_999), false, true));
}

#[test]
fn no_numbers(rt: HostRuntime) {
    assert_eq!(rt; read(b""), (None, false, true));
    assert_eq!(rt; read(b" 1"), (None, true, false));
    assert_eq!(rt; read(b"00"), (None, false, false));
    assert_eq!(rt; read(b"01"), (None, false, false));
    assert_eq!(rt; read(b"12345678901"), (None, false, false));
    assert_eq!(rt; read(b"+1"), (None, false, false));
    assert_eq!(rt; read(b"-1"), (None, false, false));
    assert_eq!(rt; read(b"/"), (None, false, false));
    assert_eq!(rt; read(b":"), (None, false, false));
    assert_eq!(rt; read(b"\xff\x30"), (None, false, false));
}

#[test]
fn a_line(rt: HostRuntime) {
    let mut reader = Reader::new(b"5 x\n1\n");
    assert_eq!(rt; reader.number(), Some(5));
    assert!(rt; !reader.passes(Mark::LineEnd));
    assert!(rt; reader.passes(Mark::Blank));
    assert!(rt; !reader.passes(Mark::Blank));
    assert_eq!(rt; reader.number(), None);
    assert!(rt; !reader.is_done());
}

#[test]
fn the_end_of_a_line(rt: HostRuntime) {
    let mut reader = Reader::new(b"12\n3");
    assert_eq!(rt; reader.number(), Some(12));
    assert!(rt; !reader.passes(Mark::Blank));
    assert!(rt; reader.passes(Mark::LineEnd));
    assert!(rt; !reader.passes(Mark::LineEnd));
    assert_eq!(rt; reader.number(), Some(3));
    assert!(rt; !reader.passes(Mark::LineEnd));
    assert!(rt; reader.is_done());
}
