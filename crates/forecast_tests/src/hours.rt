// The rule of one lamp, the sum, the refusals in their order and at their limits, and the wish.
use forecast::{Lamp, LampHours, Refusal, proposed_wish};
use std::alloc::{AllocError, Global};
use std::test::Fail;

// As many lamps with these hours and this life.
fn lamps(heap: Global, count: usize, hours: u64, life: u64) -> Result<Vec<Lamp>, AllocError> {
    vec![in heap; Lamp { hours, life }; count]
}

// What as many such lamps need over a period, or why they are refused.
fn need(
    heap: Global,
    count: usize,
    hours: u64,
    life: u64,
    period: u64,
) -> Result<Result<u32, Refusal>, AllocError> {
    let lamps = lamps(heap, count, hours, life)?;
    Ok(LampHours::check(lamps, period).map(|checked| checked.need()))
}

#[test]
fn one_lamp(rt: HostRuntime) -> Result<(), Fail> {
    let heap = rt.alloc();
    assert!(rt; need(heap, 1, 900, 1000, 99)? == Ok(0));
    assert!(rt; need(heap, 1, 900, 1000, 100)? == Ok(1));
    assert!(rt; need(heap, 1, 900, 1000, 2100)? == Ok(3));
    Ok(())
}

#[test]
fn no_lamps(rt: HostRuntime) -> Result<(), Fail> {
    assert!(rt; need(rt.alloc(), 0, 0, 0, 10_000)? == Ok(0));
    Ok(())
}

#[test]
fn most_lamps(rt: HostRuntime) -> Result<(), Fail> {
    let heap = rt.alloc();
    assert!(rt; need(heap, 1000, 1_000_000, 1, 10_000)? == Ok(1_010_000_000));
    assert!(rt; need(heap, 1001, 1_000_000, 1, 10_000)? == Err(Refusal::TooManyLamps));
    Ok(())
}

#[test]
fn limits_of_a_lamp(rt: HostRuntime) -> Result<(), Fail> {
    let heap = rt.alloc();
    assert!(rt; need(heap, 1, 1_000_000, 65_535, 10_000)? == Ok(15));
    assert!(rt; need(heap, 1, 1_000_001, 65_535, 0)? == Err(Refusal::UnlawfulLamp(0)));
    assert!(rt; need(heap, 1, 0, 65_536, 0)? == Err(Refusal::UnlawfulLamp(0)));
    assert!(rt; need(heap, 1, 0, 1, 0)? == Ok(0));
    assert!(rt; need(heap, 1, 0, 0, 0)? == Err(Refusal::UnlawfulLamp(0)));
    assert!(rt; need(heap, 1, 18_446_744_073_709_551_615, 1, 0)? == Err(Refusal::UnlawfulLamp(0)));
    Ok(())
}

#[test]
fn order_of_refusals(rt: HostRuntime) -> Result<(), Fail> {
    let heap = rt.alloc();
    assert!(rt; need(heap, 1001, 0, 0, 10_001)? == Err(Refusal::TooManyLamps));
    assert!(rt; need(heap, 1000, 0, 0, 10_001)? == Err(Refusal::PeriodTooLong));
    assert!(rt; need(heap, 1000, 0, 0, 10_000)? == Err(Refusal::UnlawfulLamp(0)));
    assert!(rt; need(heap, 0, 0, 0, 18_446_744_073_709_551_615)? == Err(Refusal::PeriodTooLong));
    Ok(())
}

#[test]
fn place_of_the_first_unlawful_lamp(rt: HostRuntime) -> Result<(), Fail> {
    let mut three = lamps(rt.alloc(), 2, 5, 5)?;
    three.push(Lamp {
        hours: 0,
        life: 70_000,
    })?;
    three.push(Lamp { hours: 0, life: 0 })?;
    match LampHours::check(three, 1) {
        Ok(_) => Err(Fail::new("an unlawful lamp is taken")),
        Err(refusal) => {
            assert_eq!(rt; refusal, Refusal::UnlawfulLamp(2));
            Ok(())
        },
    }
}

#[test]
fn numbers_of_refusals(rt: HostRuntime) {
    assert_eq!(rt; Refusal::TooManyLamps.number(), 35);
    assert_eq!(rt; Refusal::PeriodTooLong.number(), 36);
    assert_eq!(rt; Refusal::UnlawfulLamp(7).number(), 37);
}

#[test]
fn asked_twice(rt: HostRuntime) -> Result<(), Fail> {
    match LampHours::check(lamps(rt.alloc(), 3, 900, 1000)?, 100) {
        Ok(checked) => {
            assert_eq!(rt; checked.need(), 3);
            assert_eq!(rt; checked.need(), 3);
            assert_eq!(rt; checked.need_at(2), Some(1));
            assert_eq!(rt; checked.need_at(3), None);
            assert_eq!(rt; checked.lamps().len(), 3);
            assert_eq!(rt; checked.period(), 100);
            Ok(())
        }
        Err(_) => Err(Fail::new("lawful lamps are refused")),
    }
}

#[test]
fn wishes(rt: HostRuntime) {
    assert_eq!(rt; proposed_wish(5, 5), 0);
    assert_eq!(rt; proposed_wish(5, 6), 0);
    assert_eq!(rt; proposed_wish(6, 5), 1);
    assert_eq!(rt; proposed_wish(1_010_000_000, 0), 1_000_000);
    assert_eq!(rt; proposed_wish(1_000_001, 1), 1_000_000);
    assert_eq!(rt; proposed_wish(1_000_001, 2), 999_999);
    assert_eq!(rt; proposed_wish(4_294_967_295, 18_446_744_073_709_551_615), 0);
}
