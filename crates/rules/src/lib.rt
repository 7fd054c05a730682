//! Rules and shapes of tables, on plain structs and slices.
#![tactic(auto)]

mod adding;
mod blank;
mod left_side;
mod lookup;
mod measure;
mod place;
mod pushing;
mod rule;
mod run;
mod running;
mod shape;
mod side;
mod table;
mod weighing;

pub use adding::append;
pub use left_side::LeftSide;
pub use lookup::{find, is_left, rule_for};
pub use measure::Measure;
pub use place::Place;
pub use pushing::{push, pushed_weight};
pub use rule::Rule;
pub use run::Run;
pub use running::{run_node, run_of, weigh};
pub use shape::Shape;
pub use side::Side;
pub use table::Table;
pub use weighing::Weighing;
