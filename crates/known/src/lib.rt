//! Known cases of the definitions, and a round of calls that shows what the whole promise says.
#![tactic(auto)]

ghost use Rattle.std.specs.List.{AllByRecursion};
ghost use Rattle.known.specs.Cases.{Holds, cases};

mod rounds;
mod shown;

pub use rounds::{chain, round};
pub use shown::Shown;

// The definitions give what is known of small tables and weights.
pub fn known_cases_hold()
    ensures { AllByRecursion Holds cases }
{}
