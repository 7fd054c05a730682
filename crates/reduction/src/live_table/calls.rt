// What a table with its live states answers.
ghost use Rattle.std.specs.Prelude.{◌≡◌};
ghost use Rattle.automata.specs.Merging.{keeps};
ghost use Rattle.rules.specs.Shapes.{ranks_in, transition};
ghost use Rattle.reduction.specs.Marking.{live_in};

use crate::live_table::LiveTable;
use kinds::Kind;
use rules::Rule;

impl<'a, W: Kind> LiveTable<'a, W> {
    // Whether a state is live.
    pub(crate) fn is_live(&self, state: usize) -> bool
        ensures { result ≡ live_in self.now.life.now state }
    {
        self.life.has(state)
    }

    // Whether all states of a rule are live.
    pub(crate) fn is_live_rule(&self, rule: &Rule<W>) -> bool
        ensures { result ≡ keeps (live_in self.now.life.now) (transition W.Kind.stands (ranks_in self.now.table.shape.now) rule.now) }
    {
        self.is_live(usize::from(rule.target))
            && self.life.has_all(self.table.shape.children(&rule.left))
    }
}
