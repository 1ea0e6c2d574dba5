// Reading a sheet.
ghost use Rattle.std.specs.Prelude.{◌≡◌};
ghost use Rattle.text_lines.specs.Reading.{left};
ghost use Rattle.lamp_report.specs.Reading.{Answers, FindsLine};

use crate::sheet::{FIRST_LAMP_LINE, Fault, Sheet};
use forecast::Lamp;
use std::alloc::Global;
use text_lines::{Mark, Reader};

/// The sheet that the bytes are: a line with shelf and period, then a line with hours and life for each lamp. It
/// refuses the first line of another form, with its number; a missing first line is such a line too.
#[tactic(auto, using(crate::proofs::Fronts::sheet_read))]
pub fn read_sheet(heap: Global, bytes: &[u8]) -> Result<Sheet, Fault>
    ensures { Answers bytes.now result }
{
    let mut reader = Reader::new(bytes);
    let Some((shelf, period)) = two_numbers(&mut reader) else {
        return Err(Fault::Line(1));
    };
    let mut lamps = Vec::new(heap);
    // A loop and no `try_collect` over lines: a fault tells its line by how many lamps were read before it.
    while !reader.is_done() {
        let Some((hours, life)) = two_numbers(&mut reader) else {
            return Err(Fault::Line(lamps.len() + FIRST_LAMP_LINE));
        };
        lamps.push(Lamp { hours, life })?;
    }
    Ok(Sheet {
        shelf,
        period,
        lamps,
    })
}

// The two numbers of the line that comes next, and goes past it; none where no line of two numbers comes next.
fn two_numbers(reader: &mut Reader<'_>) -> Option<(u64, u64)>
    ensures { FindsLine (left reader.old) result (left reader.new) }
{
    let first = reader.number()?;
    if !reader.passes(Mark::Blank) {
        return None;
    }
    let second = reader.number()?;
    if !reader.passes(Mark::LineEnd) {
        return None;
    }
    Some((first, second))
}
