// What any policy gives, proved once from what makes a policy.
ghost use Rattle.std.specs.Prelude.{◌≡◌, ℕ, ◌<◌, ◌≤◌, List};
ghost use Rattle.entries.specs.Lists.{Listed};
ghost use Rattle.policies.specs.Dealing.{DealtOut};
ghost use Rattle.policies.specs.Shares.{share_of};

use crate::meaning::Policy;
use entries::{Entries, Entry};

/// The share of a depot: what stands where the depot stands on the list, and 0 where it is not on it. Callers have the
/// list from a record, where it is one.
pub fn share_of<P: Policy>(list: &[Entry], depot: u8) -> u32
    requires { Listed list.now }
    ensures { result ≡ share_of P.Policy.share list.now depot }
{
    list.iter()
        .position(|next| next.depot == depot)
        .map_or(0, |place| P::share_at(list, place))
}

/// Deals a list out by a policy: the shelf of every entry becomes its share, and all else of it stays. The shelves
/// together hold what they held, whatever the policy, since that is what makes it one. Callers fill the place with a
/// list.
pub fn deal_out<P: Policy>(place: &mut Entries)
    requires { Listed place.old }
    ensures { DealtOut P.Policy.share place.old place.new }
{
    let list = place.as_slice();
    let mut dealt = Entries::empty();
    for (at, entry) in list.iter().enumerate() {
        dealt.push(Entry {
            shelf: P::share_at(list, at),
            ..*entry
        });
    }
    *place = dealt;
}
