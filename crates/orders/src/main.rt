//! Weighs two readings of one purchase order, and prints the better one first.
#![tactic(auto)]

mod choice;
mod costs;
mod fault;
mod line;
mod reading;
mod report;
mod state;
mod symbol;
mod table;

use costs::lines;
use fault::Fault;
use reading::parse;
use report::print_report;
use std::io;
use std::process::ExitCode;
use table::weigh_both;

fn run(rt: &HostRuntime) -> Result<(), Fault> {
    let heap = rt.alloc();
    let text = io::read_to_string(heap, rt.stdin())?;
    let readings = parse(heap, text.as_str())?;
    let [first, second] = readings.as_slice() else {
        return Err(Fault::Readings(readings.len()));
    };
    let lines = lines();
    let verdict = weigh_both(heap, &lines, first, second)?;
    print_report(rt, lines.len(), &verdict)?;
    Ok(())
}

fn main(rt: HostRuntime) -> ExitCode {
    match run(&rt) {
        Ok(()) => ExitCode::SUCCESS,
        Err(fault) => {
            let _ = eprintln!(rt; "orders: {fault}");
            ExitCode::FAILURE
        }
    }
}
