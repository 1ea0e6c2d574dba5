// The letters that depots send one another, and their one form in bytes.
//
// `read` takes bytes apart into a letter or says what is wrong with them, and `write` puts a message's bytes at the
// front of a buffer. The format stands in docs/LETTERS.md; `entry_codec` serves whoever else holds entries in bytes.
#![tactic(auto)]

mod entry_codec;
mod entry_reader;
mod fault;
mod filling;
mod format;
mod letter;
mod message;
mod reading;
mod theorems;
mod unchecked;
mod writing;

pub use entry_codec::{check_entry, entry_at, entry_bytes};
pub use entry_reader::{EntryReader, entries_in};
pub use fault::{Fault, Unread, Unreadable, Unwritten};
pub use format::{ENTRY_LEN, HEAD_LEN};
pub use letter::{Head, Kind, Letter, UnknownKind};
pub use message::Message;
pub use reading::read;
pub use theorems::{one_form, worked_letters};
pub use writing::write;
