// What a shape answers, and how it comes to be.
ghost use Rattle.std.specs.Prelude.{◌≡◌, ℕ, ◌≤◌, min, false, [], ◌∷◌, nat_le};
ghost use Rattle.automata.specs.Trees.{rank};
ghost use Rattle.trees.specs.Alphabets.{ranks_of};
ghost use Rattle.trees.specs.declared.refusal.Refusal.TheVariants.{State};
ghost use Rattle.trees.specs.Refusals.{checks, Answers};
ghost use Rattle.rules.specs.Shapes.{ranks_in, states_in, accepts_in, children_in, Marked};

use crate::left_side::LeftSide;
use crate::measure::Measure;
use crate::shape::Shape;
use trees::{Alphabet, Refusal};

impl Shape {
    fn of_parts(measure: Measure, accepting: [bool; 48]) -> Shape
        ensures { result ≡ record { measure = measure; accepting = accepting } }
    {
        Shape { measure, accepting }
    }

    // A shape without accepting states.
    pub fn new(measure: &Measure) -> Shape
        ensures measure { result.measure ≡ measure.now }
        ensures none { (q : ℕ) → accepts_in result q ≡ false }
    {
        Shape::of_parts(*measure, [false; 48])
    }

    pub fn alphabet(&self) -> Alphabet
        ensures { ranks_of result ≡ ranks_in self.now }
    {
        self.measure.alphabet()
    }

    // The rank of a symbol, and 0 for one that is not of the alphabet.
    pub fn rank(&self, symbol: usize) -> usize
        ensures value { result ≡ rank (ranks_in self.now) symbol }
        ensures small { result ≤ 4 }
    {
        self.alphabet().rank_or_zero(symbol)
    }

    // The children of a left side, as many as its symbol's rank.
    pub fn children<'a>(&self, left: &'a LeftSide) -> &'a [u8]
        ensures { result.now ≡ children_in self.now left.now }
    {
        &left.children[..self.rank(usize::from(left.symbol))]
    }

    pub fn states(&self) -> usize
        ensures { result ≡ states_in self.now }
    {
        self.measure.states()
    }

    // Whether the state is marked; none past the last is.
    pub fn is_accepting(&self, state: usize) -> bool
        ensures { result ≡ accepts_in self.now state }
    {
        self.accepting.get(state).copied().unwrap_or(false)
    }

    // Marks a state.
    pub fn accept(&mut self, state: usize) -> Result<(), Refusal>
        ensures { Answers (checks (record { met = nat_le (states_in self.old) state; refusal = State } ∷ [])) (λ _. Marked state self.old self.new) (self.new ≡ self.old) result }
    {
        if state >= self.measure.states() {
            return Err(Refusal::State);
        }
        self.accepting[state] = true;
        Ok(())
    }

    // The same alphabet with another number of states, 48 at most, and other marks.
    pub fn regrouped(&self, states: usize, accepting: [bool; 48]) -> Shape
        ensures ranks { ranks_in result ≡ ranks_in self.now }
        ensures states { states_in result ≡ min states 48 }
        ensures marks { result.accepting ≡ accepting }
    {
        Shape {
            measure: self.measure.with_states(states),
            accepting,
        }
    }
}
