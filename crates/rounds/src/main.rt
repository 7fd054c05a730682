//! Generates large tables, reduces them, compares, and deletes the large ones. What it writes to standard error are times.
#![tactic(auto)]

mod fault;
mod form;
mod generating;
mod round;

use fault::Fault;
use form::Form;
use round::round;
use std::process::ExitCode;

// Forms at the limits of tables: 48 states, up to 32 symbols, up to 1,024 rules, and ranks 1, 2 and 4.
const FORMS: [Form; 4] = [
    Form {
        classes: 8,
        copies: 6,
        leaves: 16,
        rank: 2,
        groups: 28,
    },
    Form {
        classes: 1,
        copies: 48,
        leaves: 11,
        rank: 1,
        groups: 21,
    },
    Form {
        classes: 4,
        copies: 12,
        leaves: 11,
        rank: 1,
        groups: 84,
    },
    Form {
        classes: 16,
        copies: 3,
        leaves: 31,
        rank: 4,
        groups: 12,
    },
];

fn run(rt: &HostRuntime) -> Result<(), Fault> {
    for form in FORMS {
        round(rt, form)?;
    }
    Ok(())
}

fn main(rt: HostRuntime) -> ExitCode {
    match run(&rt) {
        Ok(()) => ExitCode::SUCCESS,
        Err(fault) => {
            let _ = eprintln!(rt; "rounds: {fault}");
            ExitCode::FAILURE
        }
    }
}
