// Which of two weighings is better.
ghost use Rattle.std.specs.Prelude.{◌≡◌, ◌↔◌, IsTrue};
ghost use Rattle.orders.specs.Choosing.{cost_in, Beats, Chooses};

use kinds::{Cost, Kind};
use rules::Weighing;
use std::fmt;

#[derive(Clone, Copy, PartialEq, Eq, Debug)]
pub enum Which {
    First,
    Second,
}

impl fmt::Display for Which {
    fn fmt<W: fmt::Write>(&self, f: &mut fmt::Formatter<W>) -> fmt::Result {
        f.write_str(match self {
            Which::First => "first",
            Which::Second => "second",
        })
    }
}

// The cost that a weighing gives, if it gives a weight.
fn cost(weighing: Weighing<Cost>) -> Option<i64>
    ensures { result ≡ cost_in weighing }
{
    match weighing {
        Weighing::NoRun | Weighing::Ended { .. } => None,
        Weighing::Weighs { weight, .. } => Some(weight.code()),
    }
}

// Whether a cost is lower than the other, or there is no other.
fn beats(cost: Option<i64>, other: Option<i64>) -> bool
    ensures { IsTrue result ↔ Beats cost other }
{
    cost.is_some_and(|cost| other.is_none_or(|other| cost < other))
}

// The better of two weighings; of two alike the first is chosen.
pub fn better(first: Weighing<Cost>, second: Weighing<Cost>) -> Which
    ensures { Chooses (cost_in first) (cost_in second) result }
{
    if beats(cost(second), cost(first)) {
        Which::Second
    } else {
        Which::First
    }
}
