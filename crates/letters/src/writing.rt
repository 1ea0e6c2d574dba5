// Writing a message.
ghost use Rattle.std.specs.Prelude.{◌≡◌, ◌*◌, ◌≤◌, [], ◌++◌, length, drop};
ghost use Rattle.letters.specs.Format.{entry_len};
ghost use Rattle.letters.specs.Bytes.{entries_bytes, encode};
ghost use Rattle.letters.specs.OneForm.{ReadBack};
ghost use Rattle.letters.specs.Code.{kind_number, says};
ghost use Rattle.letters.specs.Writing.{message_says, Wrote};

use crate::entry_codec::entry_bytes;
use crate::format::{ENTRY_LEN, HEAD_LEN, LETTER_MARK};
use crate::{Head, Kind, Message, Unwritten};
use entries::Entry;

// The bytes of a head.
fn head_bytes(kind: Kind, head: Head) -> [u8; HEAD_LEN]
    ensures { result ≡ encode (says (kind_number kind) head []) }
{
    let [m0, m1] = LETTER_MARK.to_be_bytes();
    let [t0, t1] = head.to.0.to_be_bytes();
    let [n0, n1, n2, n3] = head.number.to_be_bytes();
    [
        m0,
        m1,
        kind.number(),
        head.sender,
        t0,
        t1,
        head.leader,
        head.code,
        n0,
        n1,
        n2,
        n3,
    ]
}

// Fills the front of a buffer with the entries' bytes, and leaves the rest.
#[tactic(auto, using(crate::proofs::Written::entry_written))]
fn write_entries(entries: &[Entry], buffer: &mut [u8])
    requires { entry_len * length entries.now ≤ length buffer.old }
    ensures { buffer.new ≡ entries_bytes entries.now ++ drop (entry_len * length entries.now) buffer.old }
{
    // By places: once the loan of `chunks_exact_mut` is over, a proof knows no byte of the buffer (tried).
    for (index, entry) in entries.iter().enumerate() {
        let at = ENTRY_LEN * index;
        buffer[at..at + ENTRY_LEN].copy_from_slice(&entry_bytes(*entry));
    }
}

/// Fills the front of the buffer with the message's bytes, leaves the rest, and answers how many bytes it filled. What
/// is written is read back as the same letter.
///
/// Refuses a buffer shorter than the letter (34), and leaves it as it was.
pub fn write(message: &Message, buffer: &mut [u8]) -> Result<usize, Unwritten>
    ensures wrote { Wrote (message_says message.now) buffer.old result buffer.new }
    ensures form { ReadBack (message_says message.now) }
{
    let entries = message.entries.as_slice();
    let len = HEAD_LEN + ENTRY_LEN * entries.len();
    if buffer.len() < len {
        return Err(Unwritten::NoRoom);
    }
    buffer[0..HEAD_LEN].copy_from_slice(&head_bytes(message.kind, message.head));
    write_entries(entries, &mut buffer[HEAD_LEN..]);
    Ok(len)
}
