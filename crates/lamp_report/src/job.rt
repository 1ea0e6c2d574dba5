// The whole job, from bytes to text.
ghost use Rattle.std.specs.Prelude.{◌≡◌, IfOk, string_bytes};
ghost use Rattle.lamp_report.specs.Job.{Does, fault_text};

use crate::reading::read_sheet;
use crate::report::write_report;
use crate::sheet::{Fault, Sheet};
use forecast::LampHours;
use std::alloc::{AllocError, Global};

/// The text of the answer to the sheet that the bytes are. It refuses the first line of another form, then what the
/// forecast refuses; and it tells where memory ran out.
pub fn answer(heap: Global, bytes: &[u8]) -> Result<String, Fault>
    ensures { Does bytes.now result }
{
    let Sheet {
        shelf,
        period,
        lamps,
    } = read_sheet(heap, bytes)?;
    let hours = LampHours::check(lamps, period)?;
    let text = write_report(heap, &hours, shelf)?;
    Ok(text)
}

/// What a storeman is told where there is no answer.
pub fn explain(heap: Global, fault: Fault) -> Result<String, AllocError>
    ensures { IfOk result (λ text. string_bytes text ≡ fault_text fault) }
{
    format!(in heap; "{fault}\n")
}
