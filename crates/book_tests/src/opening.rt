// Planning, allotting, opening and handing out.
use crate::samples::{opened, refused};
use book::{Draft, Plan};
use policies::Level;
use std::test::Fail;

#[test]
fn plans_within_the_limits(rt: HostRuntime) -> Result<(), Fail> {
    let _ = Plan::check(0, 1)?;
    let _ = Plan::check(1_000_000, 16)?;
    assert!(rt; refused(Plan::check(10, 0), 1));
    assert!(rt; refused(Plan::check(10, 17), 1));
    assert!(rt; refused(Plan::check(1_000_001, 16), 2));
    assert!(rt;
        refused(Plan::check(1_000_001, 17), 1),
        "the number of depots is tested first"
    );
    Ok(())
}

#[test]
fn what_remains_goes_to_the_first_depot(rt: HostRuntime) -> Result<(), Fail> {
    let mut draft = Draft::new::<Level>(Plan::check(10, 3)?);
    draft.allot(0, 3)?;
    draft.allot(1, 4)?;
    let mut set = draft.open();
    assert_eq!(rt; set.hand(0)?.shelf(), 6);
    assert_eq!(rt; set.hand(1)?.shelf(), 4);
    assert_eq!(rt; set.hand(2)?.shelf(), 0);
    Ok(())
}

#[test]
fn allotments_refused(rt: HostRuntime) -> Result<(), Fail> {
    let mut draft = Draft::new::<Level>(Plan::check(10, 2)?);
    assert!(rt;
        refused(draft.allot(2, 11), 3),
        "the depot is tested before the pieces"
    );
    assert!(rt; refused(draft.allot(0, 11), 5));
    draft.allot(0, 0)?;
    assert!(rt;
        refused(draft.allot(0, 11), 4),
        "an allotment of 0 is one, and is tested before the pieces"
    );
    draft.allot(1, 10)?;
    assert_eq!(rt; draft.open().hand(0)?.shelf(), 0, "nothing remains");
    Ok(())
}

#[test]
fn records_are_handed_out_once(rt: HostRuntime) -> Result<(), Fail> {
    let mut set = opened(16)?;
    assert!(rt; refused(set.hand(16), 3));
    let last = set.hand(15)?;
    assert_eq!(rt; last.identity().depot, 15);
    assert_eq!(rt; last.identity().depots, 16);
    assert_eq!(rt; last.identity().code, 1);
    assert!(rt; refused(set.hand(15), 6));
    assert_eq!(rt; set.hand(0)?.shelf(), 10);
    Ok(())
}
