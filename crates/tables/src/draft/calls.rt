// The calls of a draft.
ghost use Rattle.std.specs.Prelude.{◌≡◌, length};
ghost use Rattle.trees.specs.Refusals.{checks, Answers};
ghost use Rattle.rules.specs.Measures.{ranks};
ghost use Rattle.rules.specs.Books.{Opens, accept_checks, Accepts, add_checks, added};
ghost use Rattle.tables.specs.Images.{draft_holds, closed_holds, SameDraft};

use crate::closed::Closed;
use crate::draft::Draft;
use kinds::Kind;
use rules::{Measure, Rule, Shape, append};
use trees::Refusal;

impl<'a, W: Kind> Draft<'a, W> {
    // A draft without rules or accepting states, over lent memory.
    pub fn open(measure: &Measure, rules: &'a mut [Rule<W>]) -> Draft<'a, W>
        ensures { Opens (ranks measure.now) measure.now.states (length rules.old) (draft_holds W.Kind.stands result) }
    {
        Draft {
            shape: Shape::new(measure),
            count: 0,
            rules,
        }
    }

    // Marks a state as accepting.
    pub fn accept(&mut self, state: usize) -> Result<(), Refusal>
        ensures { Answers (checks (accept_checks (draft_holds W.Kind.stands self.old) state)) (λ _. Accepts state (draft_holds W.Kind.stands self.old) (draft_holds W.Kind.stands self.new)) (SameDraft self.old self.new) result }
    {
        self.shape.accept(state)
    }

    // Adds a rule behind the others.
    pub fn add(
        &mut self,
        symbol: usize,
        children: &[usize],
        target: usize,
        weight: W,
    ) -> Result<(), Refusal>
        ensures { Answers (checks (add_checks (draft_holds W.Kind.stands self.old) symbol children.now target)) (λ _. draft_holds W.Kind.stands self.new ≡ added (draft_holds W.Kind.stands self.old) (record { symbol = symbol; children = children.now; target = target; weight = W.Kind.stands weight })) (SameDraft self.old self.new) result }
    {
        let shape = self.shape;
        let count = self.count;
        self.count = append(&shape, self.rules, count, symbol, children, target, weight)?;
        Ok(())
    }

    // Closes the draft for good.
    pub fn close(self) -> Closed<'a, W>
        ensures { closed_holds W.Kind.stands result ≡ draft_holds W.Kind.stands self.entry }
    {
        let Draft {
            shape,
            count,
            rules,
        } = self;
        Closed::of_parts(shape, count, rules)
    }
}
