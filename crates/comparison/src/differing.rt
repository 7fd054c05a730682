// Whether two tables weigh the tree of an entry differently.
ghost use Rattle.std.specs.Prelude.{◌≡◌, true, ◌↔◌, ◌≢◌};
ghost use Rattle.std.specs.Option.{option_map};
ghost use Rattle.rules.specs.Shapes.{accepts_in};
ghost use Rattle.rules.specs.Running.{at_of, run_at};
ghost use Rattle.rules.specs.declared.side.Side.TheVariants.{First, Second};
ghost use Rattle.comparison.specs.Differing.{weight_by};

use crate::two_tables::TwoTables;
use kinds::Kind;
use rules::{Place, Run, Shape, Side, run_of};

// The weight of a tree with this run, if it has one.
fn weight_by<W: Kind>(shape: &Shape, run: Option<Run<W>>) -> Option<W>
    ensures { option_map W.Kind.stands result ≡ weight_by (accepts_in shape.now) (option_map (at_of W.Kind.stands) run) }
{
    let Run { state, weight } = run?;
    if shape.is_accepting(state) {
        Some(weight)
    } else {
        None
    }
}

// Whether both are absent, or both stand for one weight.
fn are_same<W: Kind>(first: Option<W>, second: Option<W>) -> bool
    ensures { (result ≡ true) ↔ (option_map W.Kind.stands first ≡ option_map W.Kind.stands second) }
{
    match (first, second) {
        (Some(v), Some(w)) => v.same(w),
        (None, None) => true,
        _ => false,
    }
}

// Whether the two tables weigh the tree of an entry differently, by its two runs.
pub fn differs<W: Kind>(tables: &TwoTables<W>, work: &[Place<W>], entry: usize) -> bool
    ensures { (result ≡ true) ↔ (weight_by (accepts_in tables.now.first.shape.now) (run_at W.Kind.stands First work.now entry) ≢ weight_by (accepts_in tables.now.second.shape.now) (run_at W.Kind.stands Second work.now entry)) }
{
    let first_weight = weight_by(tables.first.shape, run_of(work, Side::First, entry));
    let second_weight = weight_by(tables.second.shape, run_of(work, Side::Second, entry));
    !are_same(first_weight, second_weight)
}
