// Reading what a search goes by on one side.
ghost use Rattle.std.specs.Prelude.{◌≡◌};
ghost use Rattle.comparison.specs.Scanning.{tables_of, entry_of, of_side, other_side, live_on, number_by};

use crate::scan::Scan;
use kinds::Kind;
use rules::Side;

// The other of the two sides.
fn other_side(side: Side) -> Side
    ensures { result ≡ other_side side }
{
    match side {
        Side::First => Side::Second,
        Side::Second => Side::First,
    }
}

impl<'a, W: Kind> Scan<'a, W> {
    // Whether a state of the side is live.
    pub fn is_live(&self, side: Side, state: usize) -> bool
        ensures { result ≡ live_on (tables_of W.Kind.stands self.now) side state }
    {
        let life = match side {
            Side::First => self.live.first_life,
            Side::Second => self.live.second_life,
        };
        life.has(state)
    }

    // How many states the other side has.
    pub fn other_states(&self, side: Side) -> usize
        ensures { result ≡ (of_side (tables_of W.Kind.stands self.now) (other_side side)).states }
    {
        self.live.tables.on(other_side(side)).shape.states()
    }

    // The entry of the pair of a state of the side and one of the other side, if the pair is known.
    pub fn known_pair(&self, side: Side, state: usize, other: usize) -> Option<usize>
        ensures { result ≡ number_by side (entry_of self.now) state other }
    {
        match side {
            Side::First => self.pairs.get(state, other),
            Side::Second => self.pairs.get(other, state),
        }
    }
}
