// Marking the pairs of live states of which one accepts.
ghost use Rattle.std.specs.Prelude.{◌≡◌, ℕ, true, ◌↔◌};
ghost use Rattle.pairs.specs.Cells.{cell_at};
ghost use Rattle.rules.specs.Shapes.{accepts_in};
ghost use Rattle.reduction.specs.Marking.{live_in};
ghost use Rattle.reduction.specs.Rounds.{AcceptApart, Spread};

use crate::live_table::LiveTable;
use kinds::Kind;
use pairs::PairTable;

impl<'a, W: Kind> LiveTable<'a, W> {
    // Whether both states are live and one of them accepts.
    fn accept_apart(&self, p: usize, q: usize) -> bool
        ensures { (result ≡ true) ↔ AcceptApart (accepts_in self.now.table.shape.now) (live_in self.now.life.now) p q }
    {
        if !self.is_live(p) || !self.is_live(q) {
            return false;
        }
        self.table.shape.is_accepting(p) != self.table.shape.is_accepting(q)
    }

    // Marks a live state against each live state that accepts where it does not, or does not where it does.
    fn mark_row(&self, p: usize, marks: &mut PairTable<bool>)
        ensures { Spread (AcceptApart (accepts_in self.now.table.shape.now) (live_in self.now.life.now)) (λ x y. x ≡ p) marks.old marks.new }
    {
        for q in 0..48 {
            if self.accept_apart(p, q) {
                marks.mark(p, q);
            }
        }
    }

    // The pairs of live states of which one accepts.
    pub(crate) fn accept_marks(&self) -> PairTable<bool>
        ensures { (p q : ℕ) → (cell_at result p q ≡ true) ↔ AcceptApart (accepts_in self.now.table.shape.now) (live_in self.now.life.now) p q }
    {
        let mut marks = PairTable::unmarked();
        for p in 0..48 {
            self.mark_row(p, &mut marks);
        }
        marks
    }
}
