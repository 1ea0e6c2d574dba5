// The message that writing takes, and that a letter becomes once it is taken in.
ghost use Rattle.letters.specs.Contents.{Lawful};
ghost use Rattle.letters.specs.Code.{kind_number, says};

use crate::{Head, Kind};
use entries::Entries;

/// A letter without a reference to other bytes: one to be written, which a depot fills in a place that its caller lends,
/// or one that was read. It is always lawful: it holds only values that reading accepts.
#[derive(Drop)]
pub struct Message {
    pub kind: Kind,
    pub head: Head,
    pub entries: Entries,
    ghost lawful: { ∥ Lawful (says (kind_number kind) head entries) ∥₁ },
}
