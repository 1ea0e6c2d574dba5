use entries::{
    Depots, Entries, Entry, InsertRefusal, MAX_POOL, MAX_WISH, PLACES, entry_of, is_depot, is_list,
    names_of, on_list, pool_of,
};
use std::test::Fail;

// Written out, each entry below would take five lines.
fn entry(depot: u8, shelf: u32, wish: u32) -> Entry {
    Entry { depot, shelf, wish }
}

/// Puts entries into a place one after another, up to the first that is refused.
fn fill(place: &mut Entries, more: &[Entry]) -> Result<(), InsertRefusal> {
    for next in more {
        place.insert(*next)?;
    }
    Ok(())
}

#[test]
fn sixteen_depots(rt: HostRuntime) {
    assert!(rt; is_depot(0) && is_depot(15));
    assert!(rt; !is_depot(16) && !is_depot(255));
    assert_eq!(rt; Depots::mark(0).0, 1);
    assert_eq!(rt; Depots::mark(15).0, 32768);
    assert_eq!(rt; Depots::everyone(0).0, 0);
    assert_eq!(rt; Depots::everyone(5).0, 31);
    assert_eq!(rt; Depots::everyone(16).0, 65535);
}

#[test]
fn sets_gain_depots(rt: HostRuntime) {
    assert!(rt; is_depot(3) && is_depot(15));
    let set = Depots::none().with(3).with(15).with(3);
    assert_eq!(rt; set.0, 32776);
    assert!(rt; set.contains(3) && set.contains(15) && !set.contains(4));
    assert!(rt;
        !set.contains(16) && !set.contains(255),
        "no depot has such a number"
    );
}

#[test]
fn sets_lose_depots(rt: HostRuntime) {
    let set = Depots(32776);
    assert_eq!(rt; set.without(15).0, 8);
    assert_eq!(rt; set.without(4).0, 32776);
    assert_eq!(rt; set.without(16).0, 32776);
    assert!(rt; set.without(3).without(15).is_empty());
}

#[test]
fn sets_against_sets(rt: HostRuntime) {
    let even = Depots(21845);
    let low = Depots(15);
    assert_eq!(rt; even.union(low).0, 21855);
    assert_eq!(rt; even.minus(low).0, 21840);
    assert!(rt; even.covers(Depots(5)) && even.covers(Depots::none()));
    assert!(rt; !even.covers(Depots(7)) && !low.covers(even));
    assert!(rt; even.same(Depots(21845)) && !even.same(low));
}

#[test]
fn entries_come_in_rising_order(rt: HostRuntime) {
    let mut place = Entries::empty();
    assert_eq!(rt;
        fill(
            &mut place,
            &[
                entry(7, 1, 0),
                entry(2, 4, 5),
                entry(15, 9, 0),
                entry(4, 0, 1),
            ],
        ),
        Ok(())
    );
    let sorted = [
        entry(2, 4, 5),
        entry(4, 0, 1),
        entry(7, 1, 0),
        entry(15, 9, 0),
    ];
    assert!(rt; place.as_slice() == &sorted[0..4]);
    assert_eq!(rt;
        fill(&mut place, &[entry(4, 3, 3)]),
        Err(InsertRefusal::Present)
    );
    assert!(rt; place.as_slice() == &sorted[0..4]);
}

#[test]
fn entries_are_found_by_depot(rt: HostRuntime) {
    let list = [entry(2, 4, 5), entry(15, 9, 0)];
    assert_eq!(rt; entry_of(&list, 2), Some(entry(2, 4, 5)));
    assert_eq!(rt; entry_of(&list, 3), None);
    assert!(rt; on_list(&list, 15) && !on_list(&list, 255));
}

/// The set of a list's depots, or none where the entries are no list.
fn names(list: &[Entry]) -> Option<Depots> {
    is_list(list).then(|| names_of(list))
}

#[test]
fn a_list_names_its_depots(rt: HostRuntime) {
    assert_eq!(rt;
        names(&[entry(2, 4, 5), entry(15, 9, 0)]),
        Some(Depots(32772))
    );
    assert_eq!(rt;
        names(&[entry(0, 0, 0), entry(1, 0, 0), entry(4, 1, 0)]),
        Some(Depots(19))
    );
    assert_eq!(rt; names(&[entry(2, 4, 5)]), None);
}

#[test]
fn sixteen_entries_at_the_limit(rt: HostRuntime) -> Result<(), Fail> {
    let mut place = Entries::empty();
    for i in 0..16 {
        place.insert(entry(15 - i, MAX_POOL / 16, MAX_WISH))?;
    }
    assert!(rt; is_list(place.as_slice()));
    assert_eq!(rt; pool_of(place.as_slice()), Some(1_000_000_000));
    assert_eq!(rt;
        fill(&mut place, &[entry(8, 0, 0)]),
        Err(InsertRefusal::Present)
    );
    assert_eq!(rt;
        fill(&mut place, &[entry(16, 0, 0)]),
        Err(InsertRefusal::Full)
    );
    Ok(())
}

#[test]
fn no_sum_wraps(rt: HostRuntime) {
    let mut place = Entries::empty();
    assert_eq!(rt;
        fill(&mut place, &[entry(0, u32::MAX, 0)]),
        Err(InsertRefusal::PastLimit)
    );
    assert_eq!(rt;
        fill(&mut place, &[entry(0, MAX_POOL, 0), entry(1, 1, 0)]),
        Err(InsertRefusal::PastLimit)
    );
    assert_eq!(rt; fill(&mut place, &[entry(1, 0, 0)]), Ok(()));
    assert_eq!(rt; pool_of(place.as_slice()), Some(MAX_POOL));
    assert_eq!(rt; pool_of(&[entry(0, u32::MAX, 0); 16]), None);
}

#[test]
fn lists_and_what_is_none(rt: HostRuntime) {
    assert!(rt; is_list(&[entry(0, MAX_POOL, MAX_WISH), entry(15, 0, 0)]));
    assert!(rt; !is_list(&[entry(0, 1, 0)]), "one entry");
    assert!(rt;
        !is_list(&[entry(1, 1, 0), entry(1, 1, 0)]),
        "a depot twice"
    );
    assert!(rt;
        !is_list(&[entry(2, 1, 0), entry(1, 1, 0)]),
        "falling depots"
    );
    assert!(rt;
        !is_list(&[entry(0, 1, 0), entry(16, 1, 0)]),
        "no such depot"
    );
    assert!(rt;
        !is_list(&[entry(0, 1, 0), entry(1, 1, MAX_WISH + 1)]),
        "a wish past its limit"
    );
    assert!(rt;
        !is_list(&[entry(0, MAX_POOL, 0), entry(1, 1, 0)]),
        "a pool past its limit"
    );
}

#[test]
fn a_count_past_the_place_stands_for_all_of_it(rt: HostRuntime) {
    let mut place = Entries::counted([entry(3, 1, 0); PLACES], 99);
    assert_eq!(rt; place.as_slice().len(), 16);
    assert_eq!(rt;
        fill(&mut place, &[entry(4, 1, 0)]),
        Err(InsertRefusal::Full)
    );
    assert!(rt; place.as_slice() == &[entry(3, 1, 0); 16][0..16]);
    assert_eq!(rt; Entries::of(&[entry(3, 1, 0); 99]).as_slice().len(), 16);
}

#[test]
fn a_clone_is_a_place_of_its_own(rt: HostRuntime) -> Result<(), Fail> {
    let mut place = Entries::of(&[entry(2, 4, 5), entry(15, 9, 0)]);
    let clone = place.clone()?;
    let copy = place;
    place.insert(entry(3, 0, 0))?;
    assert_eq!(rt; place.as_slice().len(), 3);
    assert!(rt; clone.as_slice() == &[entry(2, 4, 5), entry(15, 9, 0)][0..2]);
    assert!(rt; copy.as_slice() == clone.as_slice());
    Ok(())
}

#[test]
fn a_place_is_filled_anew(rt: HostRuntime) -> Result<(), Fail> {
    let mut place = Entries::of(&[entry(2, 4, 5), entry(3, 1, 1), entry(15, 9, 0)]);
    place.refill(&[entry(9, 7, 0)]);
    assert!(rt; place.as_slice() == &[entry(9, 7, 0)][0..1]);
    place.insert(entry(4, 0, 1))?;
    assert!(rt; place.as_slice() == &[entry(4, 0, 1), entry(9, 7, 0)][0..2]);
    place.clear();
    assert!(rt; place.as_slice().is_empty());
    Ok(())
}
