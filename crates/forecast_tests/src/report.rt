// The whole job: the text of an answer, and why there is none.
use forecast::{LampHours, Refusal};
use lamp_report::{Fault, Sheet, answer, explain, read_sheet, write_report};
use std::alloc::Global;
use std::process::Abort;
use std::test::Fail;

// Checks that a sheet has this answer.
fn answers(rt: &impl Abort, heap: Global, sheet: &[u8], expected: &str) -> Result<(), Fail> {
    match answer(heap, sheet) {
        Ok(text) => {
            assert!(rt; text.as_str() == expected, "the text of the answer");
            Ok(())
        },
        Err(fault) => {
            assert_eq!(rt; fault, Fault::Line(0), "the sheet has an answer");
            Ok(())
        },
    }
}

// Checks that a sheet has no answer, for this reason.
fn refuses(rt: &impl Abort, heap: Global, sheet: &[u8], expected: Fault) -> Result<(), Fail> {
    match answer(heap, sheet) {
        Ok(_) => Err(Fail::new("a sheet without an answer has one")),
        Err(fault) => {
            assert_eq!(rt; fault, expected);
            Ok(())
        },
    }
}

#[test]
fn an_answer(rt: HostRuntime) -> Result<(), Fail> {
    answers(
        &rt,
        rt.alloc(),
        b"1 2100\n900 1000\n0 8000\n",
        "lamp on line 2: 900 of 1000 hours burned, spares needed: 3\n\
         lamp on line 3: 0 of 8000 hours burned, spares needed: 0\n\
         forecast for 2100 hours: 3\n\
         on the shelf: 1\n\
         wish: 2\n",
    )
}

#[test]
fn an_answer_without_lamps(rt: HostRuntime) -> Result<(), Fail> {
    answers(
        &rt,
        rt.alloc(),
        b"9999999999 0\n",
        "forecast for 0 hours: 0\non the shelf: 9999999999\nwish: 0\n",
    )
}

#[test]
fn lines_of_another_form(rt: HostRuntime) -> Result<(), Fail> {
    let heap = rt.alloc();
    refuses(&rt, heap, b"", Fault::Line(1))?;
    refuses(&rt, heap, b"\n", Fault::Line(1))?;
    refuses(&rt, heap, b"1 2", Fault::Line(1))?;
    refuses(&rt, heap, b"1  2\n", Fault::Line(1))?;
    refuses(&rt, heap, b"1 2 \n", Fault::Line(1))?;
    refuses(&rt, heap, b"01 2\n", Fault::Line(1))?;
    refuses(&rt, heap, b"1 12345678901\n", Fault::Line(1))?;
    refuses(&rt, heap, b"1 2\n3 4\n5\n", Fault::Line(3))?;
    refuses(&rt, heap, b"1 2\n3 4\n5 6 7\n", Fault::Line(3))?;
    refuses(&rt, heap, b"1 2\n\n3 4\n", Fault::Line(2))
}

#[test]
fn form_before_the_forecast(rt: HostRuntime) -> Result<(), Fail> {
    let heap = rt.alloc();
    refuses(&rt, heap, b"1 10001\n5 0\nx\n", Fault::Line(3))?;
    refuses(
        &rt,
        heap,
        b"1 10001\n5 0\n",
        Fault::Lamps(Refusal::PeriodTooLong),
    )?;
    refuses(
        &rt,
        heap,
        b"1 10000\n5 1\n5 0\n",
        Fault::Lamps(Refusal::UnlawfulLamp(1)),
    )
}

#[test]
fn a_sheet(rt: HostRuntime) -> Result<(), Fail> {
    let heap = rt.alloc();
    let Ok(
        Sheet {
            shelf,
            period,
            lamps,
        },
    ) = read_sheet(heap, b"3 10\n5 5\n")
    else {
        return Err(Fail::new("a sheet is not read"));
    };
    assert_eq!(rt; shelf, 3);
    let Ok(hours) = LampHours::check(lamps, period) else {
        return Err(Fail::new("lawful lamps are refused"));
    };
    let text = write_report(heap, &hours, 0)?;
    let expected =
        "lamp on line 2: 5 of 5 hours burned, spares needed: 3\nforecast for 10 hours: 3\non the shelf: 0\nwish: 3\n";
    assert!(rt; text.as_str() == expected);
    Ok(())
}

#[test]
fn explanations(rt: HostRuntime) -> Result<(), Fail> {
    let heap = rt.alloc();
    let first = explain(heap, Fault::Line(1))?;
    assert!(rt;
        first.as_str()
            == "line 1: expected shelf and period in hours, two numbers of at most ten digits, one blank apart\n"
    );
    let other = explain(heap, Fault::Line(2))?;
    assert!(rt;
        other.as_str()
            == "line 2: expected a lamp's hours burned and rated life, two numbers of at most ten digits, one blank apart\n"
    );
    let lamps = explain(heap, Fault::Lamps(Refusal::TooManyLamps))?;
    assert!(rt; lamps.as_str() == "refused (35): more than 1000 lamps\n");
    Ok(())
}
