// The changes of a record that a letter can call for. Each asks that the record it leads to keeps the law; whoever
// carries a letter out has that from the protocol.
ghost use Rattle.std.specs.Prelude.{◌≡◌, ◌≤◌, true, [], ◌∷◌, length};
ghost use Rattle.entries.specs.Limits.{max_depots};
ghost use Rattle.entries.specs.Lists.{insert};
ghost use Rattle.entries.specs.Sets.{less, mark};
ghost use Rattle.protocol.specs.State.{pick, pair, stocked, owed, hears, gathers, turned, bound, ended};
ghost use Rattle.protocol.specs.Steps.{fits_gathered};
ghost use Rattle.book.specs.Calls.{Becomes, MayBecome};
ghost use Rattle.book.specs.View.{site, view};

use crate::parts::Row;
use crate::record::Record;
use entries::{Depots, Entries, Entry};
use protocol::Standing;

impl Record {
    /// Strikes the sender of a letter from those owing, where the letter tells that its handover has ended.
    // no test at the call: the definition is of every letter, and the contract says both cases at once
    pub(crate) fn strike(&mut self, strikes: bool, sender: u8)
        ensures { Becomes (λ s. owed (pick strikes (less s.owing (mark sender)) s.owing) s) self.old self.new }
    {
        if strikes {
            self.owing = self.owing.without(sender);
        }
    }

    /// Joins the handover of a leader under its number: the row stands at 1.
    pub(crate) fn join(&mut self, leader: u8, number: u32)
        requires { MayBecome (turned leader number 1) self.old }
        ensures { Becomes (turned leader number 1) self.old self.new }
    {
        let row = Row {
            number,
            standing: Standing::Offered,
        };
        self.rows.put(leader, row);
    }

    /// Gathers an entry whose depot is not gathered yet, and with whose shelf the pool stays within a list's limit.
    pub(crate) fn gather(&mut self, entry: Entry)
        requires fits { fits_gathered (view self.old).gathered (entry ∷ []) ≡ true }
        requires lawful { MayBecome (λ s. gathers (insert entry s.gathered) s) self.old }
        ensures { Becomes (λ s. gathers (insert entry s.gathered) s) self.old self.new }
    {
        let _ = self.gathered.insert(entry);
    }

    /// Binds the depot to a list in the row of its leader, with itself and the leader heard.
    pub(crate) fn bind(&mut self, leader: u8, list: &[Entry])
        requires few { length list.now ≤ max_depots }
        requires lawful { MayBecome (λ s. bound leader list.now (pair (site self.old) leader) s.owing s) self.old }
        ensures { Becomes (λ s. bound leader list.now (pair (site self.old) leader) s.owing s) self.old self.new }
    {
        self.rows.stand(leader, Standing::Accepted);
        self.list = Entries::of(list);
        self.heard = Depots::mark(self.identity.depot).with(leader);
        self.gathered = Entries::empty();
    }

    /// Has these depots heard.
    pub(crate) fn note_heard(&mut self, heard: Depots)
        requires { MayBecome (hears heard.0) self.old }
        ensures { Becomes (hears heard.0) self.old self.new }
    {
        self.heard = heard;
    }

    /// Settles the handover of a leader: the shelf becomes the share and the wish 0, and then the handover ends at 4.
    pub(crate) fn settle(&mut self, leader: u8, share: u32)
        requires { MayBecome (λ s. ended leader 4 (stocked share s.tray 0 s)) self.old }
        ensures { Becomes (λ s. ended leader 4 (stocked share s.tray 0 s)) self.old self.new }
    {
        self.finish(leader, Standing::Settled, share, 0);
    }
}
