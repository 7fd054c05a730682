// The theorems at small automata over residues: each function draws its contract from that of the theorem.
ghost use Rattle.std.specs.Prelude.{◌≡◌, ◌⊎◌, [], ◌∷◌, length, Some};
ghost use Rattle.kinds.specs.declared.residue.Residue.{Residue};
ghost use Rattle.kinds.specs.Residues.{residues};
ghost use Rattle.automata.specs.Automata.{Sound};
ghost use Rattle.automata.specs.Runs.{run, weight_of, Alike, Minimal};
ghost use Rattle.automata.specs.Contexts.{hole, plug, value, Equivalent};
ghost use Rattle.automata.specs.Pushing.{pushed};
ghost use Rattle.automata.specs.Merging.{dropped, merged};
ghost use Rattle.automata.specs.Equivalence.{Congruent};
ghost use Rattle.automata.specs.Marking.{SameSigns};
ghost use Rattle.automata.specs.Comparing.{Witness};
ghost use Rattle.automata.specs.Examples.{residue, constant, above, above_context, edge, four, member, factor, grouping, whole_grouping, chain, cut, silent, constants};

use crate::{
    equivalence_stands, failing_stands, first_round_stands, lower_bound_stands, merging_stands,
    plugging_stands, pushing_stands, reducing_stands, same_by_exploring_stands,
    second_round_stands, trimming_stands,
};
use kinds::Residue;

// The constant 0 weighs 3, its state gives 10 below the unary symbol, and the tree of both weighs 30.
pub fn plugging_example()
    ensures runs { run residues four (constant 0) ≡ Some (record { state = 0; weight = residue 3 tt tt }) }
    ensures gives { value residues four (above_context 2 hole) 0 ≡ Some (residue 10 tt tt) }
    ensures weighs { weight_of residues four (plug (above_context 2 hole) (constant 0)) ≡ Some (residue 30 tt tt) }
{
    plugging_stands::<Residue>();
}

// A push by 10 at the state 0 takes the run weight of its constant from 3 to 30, and no tree's weight changes.
pub fn pushing_example()
    ensures gains { run residues (pushed residues factor four) (constant 0) ≡ Some (record { state = 0; weight = residue 30 tt tt }) }
    ensures alike { Alike residues four (pushed residues factor four) }
    ensures weighs { weight_of residues (pushed residues factor four) (above 2 (constant 0)) ≡ Some (residue 30 tt tt) }
{
    pushing_stands::<Residue>();
}

// Without the state 3, which is not live, four of the five rules stay, and no tree's weight changes.
pub fn trimming_example()
    ensures before { length four.rules ≡ 5 }
    ensures after { length (dropped member four).rules ≡ 4 }
    ensures alike { Alike residues four (dropped member four) }
    ensures weighs { weight_of residues (dropped member four) (above 2 (constant 0)) ≡ Some (residue 30 tt tt) }
{
    trimming_stands::<Residue>();
}

// With the states 0 and 1 in one class three states and four rules are left, and no tree's weight changes.
pub fn merging_example()
    ensures states { (merged residues whole_grouping four).states ≡ 3 }
    ensures rules { length (merged residues whole_grouping four).rules ≡ 4 }
    ensures sound { Sound (merged residues whole_grouping four) }
    ensures alike { Alike residues four (merged residues whole_grouping four) }
    ensures weighs { weight_of residues (merged residues whole_grouping four) (above 2 (constant 1)) ≡ Some (residue 30 tt tt) }
{
    merging_stands::<Residue>();
}

// The state 0 gives twice what 1 gives: 1 gives 129 times what 0 gives, no other factor serves, and the rules from 0 and 1 lead to equivalent states.
pub fn equivalence_example()
    ensures twice { Equivalent residues four (residue 2 tt tt) 0 1 }
    ensures back { Equivalent residues four (residue 129 tt tt) 1 0 }
    ensures only { (a : Residue) → Equivalent residues four a 0 1 → a ≡ residue 2 tt tt }
    ensures congruent { Congruent residues four (residue 2 tt tt) (edge 2 0 2 (residue 10 tt tt)) 2 (1 ∷ []) }
{
    equivalence_stands::<Residue>();
}

// The first round tells the accepting state from the others and leaves 0 and 1 together: they have the same signs of life.
pub fn first_round_example()
    ensures same { SameSigns residues four 0 1 }
    ensures apart { SameSigns residues four 0 2 → ⊥ }
{
    first_round_stands::<Residue>();
}

// The second round leaves 0 and 1 together: they are equivalent by the quotient of their factors, 10 and 5.
pub fn second_round_example()
    ensures same { Equivalent residues four (residue 2 tt tt) 0 1 }
    ensures apart { (a : Residue) → Equivalent residues four a 0 2 → ⊥ }
{
    second_round_stands::<Residue>();
}

// No automaton with one state weighs every tree as a chain does.
pub fn lower_bound_example()
    ensures states { (chain (residue 4 tt tt) (residue 8 tt tt)).states ≡ 2 }
    ensures minimal { Minimal residues (chain (residue 4 tt tt) (residue 8 tt tt)) }
{
    lower_bound_stands::<Residue>();
}

// Four states and five rules reduce to two states and three rules. The four are not the least number, the two are.
pub fn reducing_example()
    ensures states { (merged residues grouping four).states ≡ 2 }
    ensures rules { length (merged residues grouping four).rules ≡ 3 }
    ensures alike { Alike residues four (merged residues grouping four) }
    ensures minimal { Minimal residues (merged residues grouping four) }
    ensures before { Minimal residues four → ⊥ }
    ensures weighs { weight_of residues (merged residues grouping four) (above 2 (constant 1)) ≡ Some (residue 30 tt tt) }
{
    merging_stands::<Residue>();
    reducing_stands::<Residue>();
}

// The chains with the weights 4, 8 and 2, 16 weigh every tree alike, and their one accepted tree 32.
pub fn same_by_exploring_example()
    ensures same { Alike residues (chain (residue 4 tt tt) (residue 8 tt tt)) (chain (residue 2 tt tt) (residue 16 tt tt)) }
    ensures weighs { weight_of residues (chain (residue 2 tt tt) (residue 16 tt tt)) (above 1 (constant 0)) ≡ Some (residue 32 tt tt) }
{
    same_by_exploring_stands::<Residue>();
}

// The chains with the weights 4, 8 and 2, 15 weigh one tree 32 and 30. The other ways to fail have their trees too.
pub fn failing_example()
    ensures first { weight_of residues (chain (residue 4 tt tt) (residue 8 tt tt)) (above 1 (constant 0)) ≡ Some (residue 32 tt tt) }
    ensures second { weight_of residues (chain (residue 2 tt tt) (residue 15 tt tt)) (above 1 (constant 0)) ≡ Some (residue 30 tt tt) }
    ensures unequal { Witness residues (chain (residue 4 tt tt) (residue 8 tt tt)) (chain (residue 2 tt tt) (residue 15 tt tt)) (above 1 (constant 0)) }
    ensures apart { Alike residues (chain (residue 4 tt tt) (residue 8 tt tt)) (chain (residue 2 tt tt) (residue 15 tt tt)) → ⊥ }
    ensures lone { Witness residues (chain (residue 4 tt tt) (residue 8 tt tt)) cut (above 1 (constant 0)) }
    ensures unlike { Witness residues (chain (residue 4 tt tt) (residue 8 tt tt)) silent (above 1 (constant 0)) }
    ensures uneven { Witness residues (constants (residue 3 tt tt) (residue 6 tt tt)) (constants (residue 3 tt tt) (residue 7 tt tt)) (constant 0) ⊎ Witness residues (constants (residue 3 tt tt) (residue 6 tt tt)) (constants (residue 3 tt tt) (residue 7 tt tt)) (constant 1) }
{
    failing_stands::<Residue>();
}
