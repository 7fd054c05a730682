//! The mathematics of bottom-up deterministic weighted tree automata. A function here stands for a theorem: its contract states it.
#![tactic(auto)]

ghost use Rattle.std.specs.Prelude.{ℕ, Bool};
ghost use Rattle.automata.specs.Automata.{Automaton, Sound};
ghost use Rattle.automata.specs.Pushing.{Plugging, Pushing};
ghost use Rattle.automata.specs.Merging.{Trimming, Grouping, Admissible, Merging};
ghost use Rattle.automata.specs.Equivalence.{Equivalences};
ghost use Rattle.automata.specs.Marking.{DecidesLive, TrueMarks, Chosen, FirstRound, SecondRound};
ghost use Rattle.automata.specs.Minimality.{LowerBound, ByEquivalence, Reducing};
ghost use Rattle.automata.specs.Comparing.{FailingWitnessed, SameByExploring};

use kinds::Kind;

mod examples;

pub use examples::{
    equivalence_example, failing_example, first_round_example, lower_bound_example,
    merging_example, plugging_example, pushing_example, reducing_example,
    same_by_exploring_example, second_round_example, trimming_example,
};

// A tree in a context weighs its run weight times what its state gives there.
pub fn plugging_stands<W: Kind>()
    ensures { Plugging W.Kind.weights }
{}

// A push moves no tree's weight if the factors of accepting states are one.
pub fn pushing_stands<W: Kind>()
    ensures { (A : Automaton W.Weight) (f : ℕ → W.Weight) → Pushing W.Kind.weights A f }
{}

// Without the states that are not live every tree weighs the same.
pub fn trimming_stands<W: Kind>()
    ensures { Trimming W.Kind.weights }
{}

// An admissible merge gives an automaton that weighs alike.
pub fn merging_stands<W: Kind>()
    ensures { (A : Automaton W.Weight) (G : Grouping W.Weight) → Sound A → Admissible W.Kind.weights A G → Merging W.Kind.weights A G }
{}

// Equivalence of states up to a factor is an equivalence relation and a congruence.
pub fn equivalence_stands<W: Kind>()
    ensures { (A : Automaton W.Weight) → Sound A → Equivalences W.Kind.weights A }
{}

// Marking, round one: marked states have different signs of life, live states that stay unmarked have the same, and being unmarked is an equivalence relation.
pub fn first_round_stands<W: Kind>()
    ensures { (A : Automaton W.Weight) (live : ℕ → Bool) (marks : ℕ → ℕ → Bool) → Sound A → DecidesLive W.Kind.weights A live → FirstRound W.Kind.weights A live marks }
{}

// Marking, round two: the marks are true, and live states that stay unmarked are equivalent by the quotient of their factors.
pub fn second_round_stands<W: Kind>()
    ensures { (A : Automaton W.Weight) (live : ℕ → Bool) (first : ℕ → ℕ → Bool) (f : ℕ → W.Weight) (marks : ℕ → ℕ → Bool) → Sound A → DecidesLive W.Kind.weights A live → TrueMarks W.Kind.weights A first → Chosen W.Kind.weights A live first f → SecondRound W.Kind.weights A live f marks }
{}

// An automaton whose states are live and pairwise not equivalent has no more states than any that weighs every tree alike.
pub fn lower_bound_stands<W: Kind>()
    ensures { LowerBound W.Kind.weights }
{}

// Merging the classes of equivalent live states gives the smallest automaton that weighs every tree alike.
pub fn reducing_stands<W: Kind>()
    ensures { (A : Automaton W.Weight) (G : Grouping W.Weight) → Sound A → ByEquivalence W.Kind.weights A G → Reducing W.Kind.weights A G }
{}

// Two automata over one alphabet with a complete exploration weigh every tree alike.
pub fn same_by_exploring_stands<W: Kind>()
    ensures { SameByExploring W.Kind.weights }
{}

// Where an exploration of two automata fails, a tree can be named that they weigh differently.
pub fn failing_stands<W: Kind>()
    ensures { FailingWitnessed W.Kind.weights }
{}
