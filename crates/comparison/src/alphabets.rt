// Whether two tables have one alphabet.
ghost use Rattle.std.specs.Prelude.{◌≡◌, Decides};
ghost use Rattle.rules.specs.Shapes.{ranks_in};

use crate::two_tables::TwoTables;
use kinds::Kind;

// Whether two tables have one alphabet.
pub fn share_alphabet<W: Kind>(tables: &TwoTables<W>) -> bool
    ensures { Decides result (ranks_in tables.now.first.shape.now ≡ ranks_in tables.now.second.shape.now) }
{
    let first = tables.first.shape.alphabet();
    let second = tables.second.shape.alphabet();
    first.ranks() == second.ranks()
}
