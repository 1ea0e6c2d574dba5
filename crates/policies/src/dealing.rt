// Dealing pieces among entries.
ghost use Rattle.std.specs.Prelude.{◌≡◌, ℕ, ◌/◌, ◌%◌, ◌<◌, slice_index};
ghost use Rattle.entries.specs.Lists.{Listed, pool};
ghost use Rattle.policies.specs.Shares.{dealt_out};

use entries::{Entry, pool_of};

/// The pieces on all shelves of a list, which is what a policy shares out. A policy meets what this asks by what is
/// asked of its own callers.
pub fn pieces_of(list: &[Entry]) -> u32
    requires { Listed list.now }
    ensures { result ≡ pool list.now }
{
    pool_of(list).unwrap()
}

/// How many pieces each of some entries gets where pieces are dealt among them, and how many are left over. Where there
/// are no entries, all are left over.
pub fn deal(pieces: u32, entries: usize) -> (u32, u32)
    ensures { result ≡ (pieces / entries, pieces % entries) }
{
    match u32::try_from(entries) {
        // Entries past a u32 are more than the pieces, so that none gets one.
        Ok(0) | Err(_) => (0, pieces),
        Ok(entries) => (pieces / entries, pieces % entries),
    }
}

/// The share at a place where pieces are dealt out among entries: what each gets, and one piece more at as many leading
/// places as pieces are left over. Both policies have the place from their caller, who gives one of a list's places.
#[tactic(auto, using(crate::proofs::SharesAt::dealt_out_at))]
pub(crate) fn dealt_at(pieces: u32, entries: usize, place: usize) -> u32
    requires { place < entries }
    ensures { result ≡ slice_index (dealt_out pieces entries) place }
{
    let (each, more) = deal(pieces, entries);
    // `as`: the library has no `From<u32>` for usize
    if place < more as usize {
        each + 1
    } else {
        each
    }
}
