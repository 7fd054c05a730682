// What the program prints.
use crate::choice::{Which, better};
use crate::table::{Verdict, Weighed};
use kinds::Kind;
use rules::Weighing;
use std::{fmt, io};

impl fmt::Display for Weighed<'_> {
    fn fmt<W: fmt::Write>(&self, f: &mut fmt::Formatter<W>) -> fmt::Result {
        let name = self.reading.name.as_str();
        match self.weighing {
            Weighing::NoRun => write!(f, "{name} has no run")?,
            Weighing::Ended { state } => write!(
                f,
                "{name} ends at state {state}, which is not accepting"
            )?,
            Weighing::Weighs { weight, .. } => {
                let cost = weight.code();
                write!(f, "{name} costs {cost}")?;
            }
        }
        let entries = self.reading.entries.len();
        write!(f, " (a tree list of {entries})")
    }
}

// The table, the call that it refused, and the two readings, the better one first.
pub fn print_report(rt: &impl Print, rules: usize, verdict: &Verdict<'_>) -> io::Result<()> {
    let number = verdict.refusal.number();
    println!(rt; "weighed by a table of 12 symbols, 11 states and {rules} rules")?;
    println!(rt; "its first rule, added once more, is refused ({number})")?;
    let (first, second) = (verdict.first, verdict.second);
    let (better, worse) = match better(first.weighing, second.weighing) {
        Which::First => (first, second),
        Which::Second => (second, first),
    };
    println!(rt; "1. {better}")?;
    println!(rt; "2. {worse}")
}
