// Works out a depot's wish from its lamps' hours: a sheet on standard input, the answer on standard output.
#![tactic(auto)]

use lamp_report::{answer, explain};
use std::io::Read;
use std::process::ExitCode;

fn main(rt: HostRuntime) -> anyhow::Result<ExitCode> {
    let heap = rt.alloc();
    let mut sheet = Vec::new(heap);
    rt.stdin().read_to_end(&mut sheet)?;
    match answer(heap, sheet.as_slice()) {
        Ok(text) => {
            print!(rt; "{text}")?;
            Ok(ExitCode::SUCCESS)
        }
        Err(fault) => {
            let reason = explain(heap, fault)?;
            eprint!(rt; "{reason}")?;
            Ok(ExitCode::FAILURE)
        }
    }
}
