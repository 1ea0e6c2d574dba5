// The format of letters: every mark, length and place, each named once.

/// The bytes 48 4F, with which a letter begins.
pub(crate) const LETTER_MARK: u16 = 0x484F;

/// The bytes 45 4E, with which an entry begins.
pub(crate) const ENTRY_MARK: u16 = 0x454E;

const MARK_LEN: usize = 2;

const TO_LEN: usize = 2;

const NUMBER_LEN: usize = 4;

const WISH_LEN: usize = 3;

const SHELF_LEN: usize = 4;

// The places in a head.
pub(crate) const KIND_AT: usize = MARK_LEN;

pub(crate) const SENDER_AT: usize = KIND_AT + 1;

const TO_AT: usize = SENDER_AT + 1;

pub(crate) const LEADER_AT: usize = TO_AT + TO_LEN;

pub(crate) const CODE_AT: usize = LEADER_AT + 1;

pub(crate) const NUMBER_AT: usize = CODE_AT + 1;

/// The length of a head: mark, kind, sender, to-set, leader, policy code and number.
pub const HEAD_LEN: usize = NUMBER_AT + NUMBER_LEN;

// The places in an entry.
pub(crate) const DEPOT_AT: usize = MARK_LEN;

pub(crate) const WISH_AT: usize = DEPOT_AT + 1;

pub(crate) const SHELF_AT: usize = WISH_AT + WISH_LEN;

/// The length of an entry: mark, depot, wish and shelf.
pub const ENTRY_LEN: usize = SHELF_AT + SHELF_LEN;
