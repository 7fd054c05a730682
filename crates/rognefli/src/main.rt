//! Answers the page on standard input.
#![tactic(auto)]

mod fault;

use fault::Fault;
use pages::answer;
use std::io::{Read, Write};
use std::process::ExitCode;

fn run(rt: &HostRuntime) -> Result<(), Fault> {
    let heap = rt.alloc();
    let mut page = Vec::new(heap);
    rt.stdin().read_to_end(&mut page)?;
    let out = answer(heap, page.as_slice())?;
    rt.stdout().write_all(out.as_slice())?;
    Ok(())
}

fn main(rt: HostRuntime) -> ExitCode {
    match run(&rt) {
        Ok(()) => ExitCode::SUCCESS,
        Err(fault) => {
            let _ = eprintln!(rt; "rognefli: {fault}");
            ExitCode::FAILURE
        }
    }
}
