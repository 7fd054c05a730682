// Two tables to compare.
ghost use Rattle.std.specs.Prelude.{◌≡◌};
ghost use Rattle.comparison.specs.Access.{sided};

use rules::{Side, Table};

#[derive(Clone, Copy)]
pub struct TwoTables<'a, W> {
    pub first: Table<'a, W>,
    pub second: Table<'a, W>,
}

impl<'a, W: Copy> TwoTables<'a, W> {
    // The table on one side.
    pub fn on(&self, side: Side) -> Table<'a, W>
        ensures { result ≡ sided side self.now.first self.now.second }
    {
        match side {
            Side::First => self.first,
            Side::Second => self.second,
        }
    }
}
