// Whether the known pairs over the children of a rule are all early ones.
ghost use Rattle.std.specs.Prelude.{◌≡◌, ℕ, true, Some};
ghost use Rattle.std.specs.List.{list_all};
ghost use Rattle.comparison.specs.Scanning.{tables_of, entry_of, of_side, other_side, number_by, is_before, early_pairs, PairsWithin, Rested};

use crate::scan::Scan;
use kinds::Kind;
use rules::Side;

// Whether the entry, if there is one, is among the first `since`.
fn is_before(entry: Option<usize>, since: usize) -> bool
    ensures { result ≡ is_before entry since }
{
    match entry {
        None => true,
        Some(entry) => entry < since,
    }
}

impl<'a, W: Kind> Scan<'a, W> {
    // Whether the known pairs with this state on the side are among the first `since` entries.
    fn is_early(&self, side: Side, state: usize, since: usize) -> bool
        ensures { result ≡ early_pairs side (entry_of self.now) since (of_side (tables_of W.Kind.stands self.now) (other_side side)).states state }
    {
        (0..self.other_states(side)).all(|q| is_before(self.known_pair(side, state, q), since))
    }

    // Whether no pair over these states on the side came after the first `since` entries. Without a number this is not known.
    pub fn is_rested(&self, side: Side, states: &[u8], since: Option<usize>) -> bool
        requires { PairsWithin (tables_of W.Kind.stands self.now) (entry_of self.now) }
        ensures { result ≡ true → (m : ℕ) × (since ≡ Some m) × Rested side (entry_of self.now) m states.now }
    {
        let Some(since) = since else {
            return false;
        };
        states
            .iter()
            .all(|state| self.is_early(side, usize::from(*state), since))
    }
}
