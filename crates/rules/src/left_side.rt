// The left side of a rule: a symbol, and in the first places, as many as its rank, the states of the children. The other places hold 0.
ghost use Rattle.std.specs.Prelude.{◌≡◌};

#[derive(Clone, Copy, PartialEq, Eq, Debug)]
pub struct LeftSide {
    pub symbol: u8,
    pub children: [u8; 4],
}

impl LeftSide {
    // What the places hold, as wide numbers.
    pub fn states(&self) -> [usize; 4]
        ensures { result ≡ self.now.children }
    {
        self.children.map(|state| usize::from(state))
    }
}
