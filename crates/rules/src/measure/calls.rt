// Measuring.
ghost use Rattle.std.specs.Prelude.{◌≡◌, min, [], ◌∷◌};
ghost use Rattle.trees.specs.Alphabets.{ranks_of};
ghost use Rattle.rules.specs.Measures.{ranks, Measured};

use crate::measure::Measure;
use trees::{Alphabet, Refusal};

impl Measure {
    // One symbol, of rank 0, and no states.
    pub fn fresh() -> Measure
        ensures symbols { ranks result ≡ 0 ∷ [] }
        ensures none { result.states ≡ 0 }
    {
        Measure {
            alphabet: Alphabet::fresh(),
            states: 0,
        }
    }

    // Takes on these ranks and this number of states.
    pub fn measure(&mut self, ranks: &[usize], states: usize) -> Result<(), Refusal>
        ensures { Measured self.old ranks.now states result self.new }
    {
        let alphabet = Alphabet::new(ranks)?;
        if states > 48 {
            return Err(Refusal::States);
        }
        *self = Measure { alphabet, states };
        Ok(())
    }

    pub fn alphabet(&self) -> Alphabet
        ensures { ranks_of result ≡ ranks self.now }
    {
        self.alphabet
    }

    pub fn states(&self) -> usize
        ensures { result ≡ self.now.states }
    {
        self.states
    }

    // The same alphabet with another number of states, 48 at most.
    pub fn with_states(&self, states: usize) -> Measure
        ensures ranks { ranks result ≡ ranks self.now }
        ensures states { result.states ≡ min states 48 }
    {
        Measure {
            alphabet: self.alphabet,
            states: states.min(48),
        }
    }
}
