// The text of the answer.
ghost use Rattle.std.specs.Prelude.{◌≡◌, IfOk, string_bytes};
ghost use Rattle.lamp_report.specs.Report.{lamp_lines, report_of};

use crate::sheet::FIRST_LAMP_LINE;
use forecast::{LampHours, proposed_wish};
use std::alloc::{AllocError, Global};

/// The text of the answer: what each lamp needs, the forecast, the shelf and the wish.
pub fn write_report(heap: Global, hours: &LampHours, shelf: u64) -> Result<String, AllocError>
    ensures { IfOk result (λ text. string_bytes text ≡ report_of shelf hours.now) }
{
    let mut text = lamp_lines(heap, hours)?;
    let period = hours.period();
    let need = hours.need();
    let wish = proposed_wish(need, shelf);
    writeln!(
        text,
        "forecast for {period} hours: {need}\non the shelf: {shelf}\nwish: {wish}"
    )?;
    Ok(text)
}

// A line for each lamp, by the line of the sheet that it stands on.
fn lamp_lines(heap: Global, hours: &LampHours) -> Result<String, AllocError>
    ensures { IfOk result (λ text. string_bytes text ≡ lamp_lines hours.now) }
{
    let mut text = String::new(heap);
    let lamps = hours.lamps();
    for (place, lamp) in lamps.iter().enumerate() {
        let line = place + FIRST_LAMP_LINE;
        // by its place: the forecast knows that its lamps are lawful, and a lamp alone does not
        let need = hours.need_at(place).unwrap();
        writeln!(
            text,
            "lamp on line {line}: {} of {} hours burned, spares needed: {need}",
            lamp.hours, lamp.life,
        )?;
    }
    Ok(text)
}
