// Issue, Return and Wish, free and while engaged.
use crate::samples::{record, refused};
use letters::Message;
use std::test::Fail;

#[test]
fn pieces_move(rt: HostRuntime) -> Result<(), Fail> {
    let mut depot = record(2, 0)?;
    depot.issue(4)?;
    assert_eq!(rt; depot.shelf(), 6);
    assert!(rt; refused(depot.issue(7), 9));
    depot.give_back(1)?;
    assert_eq!(rt; depot.shelf(), 7);
    assert_eq!(rt; depot.tray(), 0);
    assert!(rt; refused(depot.issue(0), 7));
    assert!(rt;
        refused(depot.issue(1_000_001), 7),
        "the number is tested before the shelf"
    );
    assert!(rt; refused(depot.give_back(0), 7));
    assert!(rt; refused(depot.set_wish(1_000_001), 11));
    depot.set_wish(1_000_000)?;
    assert_eq!(rt; depot.wish(), 1_000_000);
    Ok(())
}

#[test]
fn an_engaged_depot_keeps_its_shelf(rt: HostRuntime) -> Result<(), Fail> {
    let mut message = Message::blank();
    let mut depot = record(2, 1)?;
    depot.set_wish(5)?;
    let _ = depot.lead(&mut message)?;
    assert!(rt; depot.engaged());
    assert!(rt;
        refused(depot.issue(0), 7),
        "the number is tested before the handover"
    );
    assert!(rt;
        refused(depot.issue(1), 8),
        "the handover is tested before the shelf"
    );
    assert!(rt;
        refused(depot.set_wish(1_000_001), 11),
        "the number is tested before the handover"
    );
    assert!(rt; refused(depot.set_wish(4), 8));
    depot.give_back(3)?;
    assert_eq!(rt; depot.shelf(), 0);
    assert_eq!(rt; depot.tray(), 3);
    let _ = depot.withdraw(&mut message)?;
    assert_eq!(rt; depot.shelf(), 3, "the tray goes onto the shelf");
    assert_eq!(rt; depot.tray(), 0);
    Ok(())
}

#[test]
fn a_shelf_fills_up(rt: HostRuntime) -> Result<(), Fail> {
    let mut depot = record(1, 0)?;
    for _ in 0..999 {
        depot.give_back(1_000_000)?;
    }
    assert!(rt; refused(depot.give_back(1_000_000), 10));
    assert!(rt;
        refused(depot.give_back(1_000_001), 7),
        "the number is tested before the sum"
    );
    depot.give_back(999_990)?;
    assert_eq!(rt; depot.shelf(), 1_000_000_000);
    assert!(rt; refused(depot.give_back(1), 10));
    Ok(())
}
