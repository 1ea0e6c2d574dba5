ghost use Rattle.std.specs.Prelude.{◌≡◌, Some};
ghost use Rattle.entries.specs.Lists.{Listed};
ghost use Rattle.policies.specs.Shares.{share_of};

use crate::keeping::Keep;
use crate::last::LastTakesAll;
use entries::{Entries, Entry, MAX_POOL, entry_of, is_list, pool_of};
use policies::{Level, Policy, WishesFirst, deal, deal_out, share_of};
use std::test::Fail;

// Written out, each entry below would take five lines.
fn entry(depot: u8, shelf: u32, wish: u32) -> Entry {
    Entry { depot, shelf, wish }
}

/// The share of a depot of entries, or none where they are no list.
fn share<P: Policy>(es: &[Entry], depot: u8) -> Option<u32>
    ensures { Listed es.now → result ≡ Some (share_of P.Policy.share es.now depot) }
{
    is_list(es).then(|| share_of::<P>(es, depot))
}

/// Three depots, of which the last wishes for six pieces.
fn three() -> [Entry; 3] {
    [entry(0, 4, 0), entry(3, 9, 0), entry(5, 1, 6)]
}

#[test]
fn dealing(rt: HostRuntime) {
    assert_eq!(rt; deal(14, 3), (4, 2));
    assert_eq!(rt; deal(2, 3), (0, 2));
    assert_eq!(rt; deal(1_000_000_000, 16), (62_500_000, 0));
    assert_eq!(rt; deal(u32::MAX, 1), (u32::MAX, 0));
    assert_eq!(rt; deal(7, 0), (0, 7));
}

#[test]
fn codes(rt: HostRuntime) {
    assert_eq!(rt; Level::CODE, 1);
    assert_eq!(rt; WishesFirst::CODE, 2);
    assert!(rt; Level::governs(1) && !Level::governs(2) && !Level::governs(0));
    assert!(rt; WishesFirst::governs(2) && !WishesFirst::governs(1));
    assert!(rt; LastTakesAll::governs(255) && !Keep::governs(255));
}

#[test]
fn level_gives_the_remainder_to_the_first(rt: HostRuntime) {
    assert_eq!(rt; share::<Level>(&three(), 0), Some(5));
    assert_eq!(rt; share::<Level>(&three(), 3), Some(5));
    assert_eq!(rt; share::<Level>(&three(), 5), Some(4));
    assert_eq!(rt; share::<Level>(&three(), 4), Some(0), "not on the list");
}

#[test]
fn wishes_first_adds_the_rest(rt: HostRuntime) {
    assert_eq!(rt; share::<WishesFirst>(&three(), 0), Some(3));
    assert_eq!(rt; share::<WishesFirst>(&three(), 3), Some(3));
    assert_eq!(rt; share::<WishesFirst>(&three(), 5), Some(8));
}

#[test]
fn a_wish_that_does_not_fit_is_passed_over(rt: HostRuntime) {
    let list = [entry(0, 1, 4), entry(1, 2, 1)];
    assert_eq!(rt; share::<WishesFirst>(&list, 0), Some(1));
    assert_eq!(rt; share::<WishesFirst>(&list, 1), Some(2));
    let exact = [entry(0, 1, 3), entry(1, 2, 1)];
    assert_eq!(rt;
        share::<WishesFirst>(&exact, 0),
        Some(3),
        "a wish for all there is fits"
    );
    assert_eq!(rt; share::<WishesFirst>(&exact, 1), Some(0));
}

#[test]
fn policies_of_others(rt: HostRuntime) {
    assert_eq!(rt; share::<Keep>(&three(), 0), Some(4));
    assert_eq!(rt; share::<Keep>(&three(), 3), Some(9));
    assert_eq!(rt; share::<LastTakesAll>(&three(), 3), Some(0));
    assert_eq!(rt; share::<LastTakesAll>(&three(), 5), Some(14));
}

/// Sixteen depots that each wish for the most, with a sixteenth of the most on every shelf but the first.
fn sixteen(first: u32) -> [Entry; 16] {
    let mut list = [entry(0, MAX_POOL / 16, 1_000_000); 16];
    for (next, depot) in list.iter_mut().zip(0..) {
        next.depot = depot;
    }
    list[0].shelf = first;
    list
}

#[test]
fn sixteen_entries_at_their_limits(rt: HostRuntime) {
    assert_eq!(rt; share::<Level>(&sixteen(62_500_000), 15), Some(62_500_000));
    assert_eq!(rt;
        share::<WishesFirst>(&sixteen(62_500_000), 0),
        Some(62_500_000)
    );
    assert_eq!(rt;
        share::<LastTakesAll>(&sixteen(62_500_000), 15),
        Some(MAX_POOL)
    );
    assert_eq!(rt;
        share::<Level>(&sixteen(62_500_001), 15),
        None,
        "the pool passes its limit"
    );
}

/// A list in a place, dealt out; none where the entries are no list.
fn dealt<P: Policy>(entries: &[Entry]) -> Option<Entries> {
    let mut place = Entries::of(entries);
    if !is_list(place.as_slice()) {
        return None;
    }
    deal_out::<P>(&mut place);
    Some(place)
}

#[test]
fn dealing_out_moves_pieces_and_loses_none(rt: HostRuntime) -> Result<(), Fail> {
    let level = dealt::<Level>(&three()).ok_or("a list")?;
    assert_eq!(rt; entry_of(level.as_slice(), 3), Some(entry(3, 5, 0)));
    assert_eq!(rt; pool_of(level.as_slice()), Some(14));
    let last = dealt::<LastTakesAll>(&three()).ok_or("a list")?;
    assert_eq!(rt; entry_of(last.as_slice(), 5), Some(entry(5, 14, 6)));
    assert_eq!(rt; pool_of(last.as_slice()), Some(14));
    Ok(())
}
