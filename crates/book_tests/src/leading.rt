// Leading a handover, reminding, and leaving it again.
use crate::samples::{record, refused};
use entries::Depots;
use letters::Message;
use policies::{Level, WishesFirst};
use std::test::Fail;

#[test]
fn a_free_depot_has_nothing_to_leave(rt: HostRuntime) -> Result<(), Fail> {
    let mut message = Message::blank();
    let mut depot = record(3, 0)?;
    assert!(rt; !depot.engaged());
    assert!(rt; depot.partner().is_none());
    assert!(rt; refused(depot.lead(&mut message), 13));
    assert!(rt; refused(depot.propose::<Level>(&mut message), 16));
    assert!(rt;
        refused(depot.propose::<WishesFirst>(&mut message), 18),
        "the policy is tested first"
    );
    assert!(rt; refused(depot.withdraw(&mut message), 19));
    assert!(rt; refused(depot.query(&mut message), 20));
    assert!(rt; refused(depot.remind(&mut message), 21));
    depot.restart();
    assert_eq!(rt; depot.row(0).number, 0);
    Ok(())
}

#[test]
fn a_leader_of_sixteen(rt: HostRuntime) -> Result<(), Fail> {
    let mut message = Message::blank();
    let mut depot = record(16, 15)?;
    depot.set_wish(7)?;
    assert_eq!(rt; depot.lead(&mut message)?, Some(Depots(32767)));
    assert_eq!(rt; message.kind.number(), 1);
    assert_eq!(rt; message.head.sender, 15);
    assert_eq!(rt; message.head.leader, 15);
    assert_eq!(rt; message.head.number, 1);
    assert_eq!(rt; depot.row(15).standing.number(), 1);
    assert!(rt; refused(depot.lead(&mut message), 8));
    assert!(rt; depot.partner().is_none(), "only the leader is gathered");
    assert!(rt;
        refused(depot.propose::<WishesFirst>(&mut message), 18),
        "the policy is tested first"
    );
    assert!(rt; refused(depot.propose::<Level>(&mut message), 17));
    assert_eq!(rt; depot.remind(&mut message)?, Some(Depots(32767)));
    assert_eq!(rt; depot.withdraw(&mut message)?, Some(Depots(32767)));
    assert_eq!(rt; message.kind.number(), 7);
    assert_eq!(rt; depot.row(15).standing.number(), 3);
    assert_eq!(rt; depot.row(16).number, 0, "no depot has this number");
    Ok(())
}

#[test]
fn a_depot_alone(rt: HostRuntime) -> Result<(), Fail> {
    let mut message = Message::blank();
    let mut depot = record(1, 0)?;
    depot.set_wish(1)?;
    assert_eq!(rt; depot.lead(&mut message)?, None);
    assert!(rt; refused(depot.remind(&mut message), 21));
    assert!(rt; refused(depot.propose::<Level>(&mut message), 17));
    assert_eq!(rt; depot.withdraw(&mut message)?, None);
    assert_eq!(rt; depot.lead(&mut message)?, None);
    assert_eq!(rt; depot.row(0).number, 2);
    Ok(())
}

#[test]
fn a_restart_ends_gathering(rt: HostRuntime) -> Result<(), Fail> {
    let mut message = Message::blank();
    let mut depot = record(2, 0)?;
    depot.set_wish(1)?;
    let _ = depot.lead(&mut message)?;
    depot.give_back(2)?;
    depot.restart();
    assert!(rt; !depot.engaged());
    assert_eq!(rt; depot.row(0).number, 1);
    assert_eq!(rt; depot.row(0).standing.number(), 3);
    assert_eq!(rt; depot.shelf(), 12, "the tray goes onto the shelf");
    Ok(())
}
