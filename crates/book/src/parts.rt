// The plain parts of a record.
use entries::PLACES;
use protocol::Standing;

/// The last handover of a leader that a depot knows of: its number, and where the depot stands in it.
#[derive(Clone, Copy)]
pub struct Row {
    pub number: u32,
    pub standing: Standing,
}

/// A row in which nothing has stood.
pub(crate) const BLANK_ROW: Row = Row {
    number: 0,
    standing: Standing::Blank,
};

/// One row for each leader.
// an array in an inner struct is a form that the project names, and a record allocates nothing
// not one type with `Shares`: rows have calls of their own, and shares are plain numbers
#[derive(Clone, Copy)]
pub struct Rows {
    pub of: [Row; PLACES],
}

/// What never changes in a record: which depot it is, of how many, and under which policy's code.
#[derive(Clone, Copy)]
pub struct Identity {
    pub depot: u8,
    pub depots: u8,
    pub code: u8,
}
