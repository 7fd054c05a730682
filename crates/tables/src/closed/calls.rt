// The calls of a closed table.
ghost use Rattle.std.specs.Prelude.{◌≡◌, ◌<◌, List, [], ◌∷◌, length};
ghost use Rattle.automata.specs.Automata.{Sound};
ghost use Rattle.trees.specs.declared.refusal.Refusal.TheVariants.{Short};
ghost use Rattle.trees.specs.Alphabets.{ranks_of};
ghost use Rattle.trees.specs.Lists.{bad_list, tree_of};
ghost use Rattle.trees.specs.Refusals.{when, checks, Answers};
ghost use Rattle.rules.specs.Pushing.{push_checks};
ghost use Rattle.rules.specs.Shapes.{ranks_in, states_in};
ghost use Rattle.rules.specs.Weighing.{Weighed};
ghost use Rattle.comparison.specs.Comparing.{compare_tests, Compares};
ghost use Rattle.reduction.specs.Reducing.{ReducedTo};
ghost use Rattle.tables.specs.Histories.{Opening, Call, push, reduce, Lived, book, Continues, WeighsAsBooked};
ghost use Rattle.tables.specs.Images.{closed_holds, SameClosed, PushedClosed, extent, IfRefused};
ghost use Rattle.tables.specs.Promises.{Whole};
ghost use Rattle.tables.specs.Reductions.{Reduces};

use crate::closed::Closed;
use comparison::{Comparison, compare};
use kinds::Kind;
use reduction::reduce;
use rules::{Place, Weighing, push, weigh};
use trees::{Alphabet, Node, Refusal};

impl<'a, W: Kind> Closed<'a, W> {
    pub fn alphabet(&self) -> Alphabet
        ensures { ranks_of result ≡ ranks_in self.now.shape }
    {
        self.shape.alphabet()
    }

    // Weighs by the rules of the table.
    fn weigh_rules(&mut self, list: &[Node], work: &mut [Place<W>]) -> Result<Weighing<W>, Refusal>
        ensures answer { Answers (bad_list (ranks_in self.old.shape) list.now ∷ when (length work.old < length list.now) Short ∷ []) (Weighed W.Kind.stands W.Kind.weights (closed_holds W.Kind.stands self.old).content (tree_of (ranks_in self.old.shape) list.now)) (work.new ≡ work.old) result }
        ensures same { SameClosed self.old self.new }
    {
        let shape = self.shape;
        let count = self.count;
        weigh(&shape, self.rules, count, list, work)
    }

    // Weighs the tree of a list, with a place of the work list for each entry.
    pub fn weigh(&mut self, list: &[Node], work: &mut [Place<W>]) -> Result<Weighing<W>, Refusal>
        ensures answer { Answers (bad_list (ranks_in self.old.shape) list.now ∷ when (length work.old < length list.now) Short ∷ []) (Weighed W.Kind.stands W.Kind.weights (closed_holds W.Kind.stands self.old).content (tree_of (ranks_in self.old.shape) list.now)) (work.new ≡ work.old) result }
        ensures same { SameClosed self.old self.new }
        ensures booked { (o : Opening) (h : List (Call W.Weight)) → Lived W.Kind.weights o h (closed_holds W.Kind.stands self.old) → WeighsAsBooked W.Kind.weights W.Kind.stands (book o h) (tree_of (ranks_in self.old.shape) list.now) result }
    {
        self.weigh_rules(list, work)
    }

    // Compares by the rules of both tables.
    fn compare_rules(
        &mut self,
        other: &mut Closed<'_, W>,
        list: &mut [Node],
        work: &mut [Place<W>],
    ) -> Result<Comparison, Refusal>
        ensures answer { Answers (compare_tests (closed_holds W.Kind.stands self.old).content (closed_holds W.Kind.stands other.old).content (length list.old) (length work.old)) (Compares W.Kind.weights (closed_holds W.Kind.stands self.old).content (closed_holds W.Kind.stands other.old).content list.old list.new) ((list.new ≡ list.old) × (work.new ≡ work.old)) result }
        ensures same { SameClosed self.old self.new }
        ensures other { SameClosed other.old other.new }
    {
        let first = self.shape;
        let first_count = self.count;
        let second = other.shape;
        let second_count = other.count;
        compare(
            &first,
            self.rules,
            first_count,
            &second,
            other.rules,
            second_count,
            list,
            work,
        )
    }

    // Compares with another table: every tree weighs alike in both, or the list tells one that does not.
    pub fn compare(
        &mut self,
        other: &mut Closed<'_, W>,
        list: &mut [Node],
        work: &mut [Place<W>],
    ) -> Result<Comparison, Refusal>
        ensures answer { Answers (compare_tests (closed_holds W.Kind.stands self.old).content (closed_holds W.Kind.stands other.old).content (length list.old) (length work.old)) (Compares W.Kind.weights (closed_holds W.Kind.stands self.old).content (closed_holds W.Kind.stands other.old).content list.old list.new) ((list.new ≡ list.old) × (work.new ≡ work.old)) result }
        ensures same { SameClosed self.old self.new }
        ensures other { SameClosed other.old other.new }
        ensures whole { (o₁ o₂ : Opening) (h₁ h₂ : List (Call W.Weight)) → Lived W.Kind.weights o₁ h₁ (closed_holds W.Kind.stands self.old) → Lived W.Kind.weights o₂ h₂ (closed_holds W.Kind.stands other.old) → Whole W.Kind.weights W.Kind.stands o₁ o₂ h₁ h₂ (closed_holds W.Kind.stands self.old) (closed_holds W.Kind.stands other.old) list.old list.new (length work.old) result }
    {
        self.compare_rules(other, list, work)
    }

    // Pushes through a state in the rules of the table.
    fn push_rules(&mut self, state: usize, factor: W) -> Result<(), Refusal>
        ensures { Answers (checks (push_checks (closed_holds W.Kind.stands self.old) state)) (λ _. PushedClosed W.Kind.weights W.Kind.stands state (W.Kind.stands factor) self.old self.new) (SameClosed self.old self.new) result }
    {
        let shape = self.shape;
        let count = self.count;
        push(&shape, self.rules, count, state, factor)
    }

    // Pushes weight through a state that is not accepting.
    pub fn push(&mut self, state: usize, factor: W) -> Result<(), Refusal>
        ensures answer { Answers (checks (push_checks (closed_holds W.Kind.stands self.old) state)) (λ _. PushedClosed W.Kind.weights W.Kind.stands state (W.Kind.stands factor) self.old self.new) (SameClosed self.old self.new) result }
        ensures unmoved { (o : Opening) (h : List (Call W.Weight)) → Lived W.Kind.weights o h (closed_holds W.Kind.stands self.old) → Continues W.Kind.weights o (push state (W.Kind.stands factor) result ∷ h) (closed_holds W.Kind.stands self.old) (closed_holds W.Kind.stands self.new) }
    {
        self.push_rules(state, factor)
    }

    // Reduces the rules of the table, and takes on their shape and number.
    fn reduce_rules(&mut self, work: &mut [Place<W>]) -> Result<(), Refusal>
        ensures answer { Answers (when (length work.old < states_in self.old.shape) Short ∷ []) (λ _. Sound (closed_holds W.Kind.stands self.old).content → ReducedTo W.Kind.stands W.Kind.weights (closed_holds W.Kind.stands self.old).content (extent self.new) self.new.rules.now) (SameClosed self.old self.new × (work.new ≡ work.old)) result }
        ensures length { length self.new.rules.now ≡ length self.old.rules.now }
    {
        let shape = self.shape;
        let count = self.count;
        let reduced = reduce(&shape, self.rules, count, work)?;
        self.shape = reduced.shape;
        self.count = reduced.count;
        Ok(())
    }

    // Reduces the table; the work list has a place for each state. Answers the numbers of states before and after.
    pub fn reduce(&mut self, work: &mut [Place<W>]) -> Result<(usize, usize), Refusal>
        ensures answer { Reduces W.Kind.weights (closed_holds W.Kind.stands self.old) (length work.old) result (closed_holds W.Kind.stands self.new) }
        ensures refused { IfRefused result (SameClosed self.old self.new × (work.new ≡ work.old)) }
        ensures unmoved { (o : Opening) (h : List (Call W.Weight)) → Lived W.Kind.weights o h (closed_holds W.Kind.stands self.old) → Continues W.Kind.weights o (reduce (length work.old) result ∷ h) (closed_holds W.Kind.stands self.old) (closed_holds W.Kind.stands self.new) }
    {
        let before = self.shape.states();
        self.reduce_rules(work)?;
        Ok((before, self.shape.states()))
    }
}
