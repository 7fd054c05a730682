// Reading and writing the values of pairs.
ghost use Rattle.std.specs.Prelude.{◌≡◌, ℕ, ◌<◌, true, false, ◌&&◌, ◌||◌, if◌then◌else◌, None, ◌==◌, nat_eq, nat_lt};
ghost use Rattle.pairs.specs.Cells.{cell_at};

use crate::blank::Blank;
use crate::pair_table::PairTable;

impl<T: Blank> PairTable<T> {
    // Every pair has the value, unless a state is past the last.
    #[tactic(auto, using(crate::proofs::Cells::cell_filled))]
    pub fn filled(value: T) -> PairTable<T>
        ensures { (p q : ℕ) → cell_at result p q ≡ (if nat_lt p 48 && nat_lt q 48 then value else T.blank) }
    {
        PairTable {
            cells: [[value; 48]; 48],
        }
    }

    // The value of the pair, and the blank where a state is past the last.
    pub fn get(&self, p: usize, q: usize) -> T
        ensures there { result ≡ cell_at self.now p q }
        ensures beyond { (p < 48 → q < 48 → ⊥) → result ≡ T.blank }
    {
        if p < 48 && q < 48 {
            self.cells[p][q]
        } else {
            T::blank()
        }
    }

    // Gives the pair a value, unless a state is past the last.
    pub fn set(&mut self, p: usize, q: usize, value: T)
        ensures there { p < 48 → q < 48 → (x y : ℕ) → cell_at self.new x y ≡ (if nat_eq x p && y == q then value else cell_at self.old x y) }
        ensures beyond { (p < 48 → q < 48 → ⊥) → self.new ≡ self.old }
    {
        if p < 48 && q < 48 {
            self.cells[p][q] = value;
        }
    }
}

impl PairTable<bool> {
    // No pair is marked.
    #[tactic(auto, using(crate::proofs::Cells::same_either))]
    pub fn unmarked() -> PairTable<bool>
        ensures { (p q : ℕ) → cell_at result p q ≡ false }
    {
        PairTable::filled(false)
    }

    // Marks the pair, unless a state is past the last.
    pub fn mark(&mut self, p: usize, q: usize)
        ensures there { p < 48 → q < 48 → (x y : ℕ) → cell_at self.new x y ≡ (if nat_eq x p && y == q then true else cell_at self.old x y) }
        ensures beyond { (p < 48 → q < 48 → ⊥) → self.new ≡ self.old }
    {
        self.set(p, q, true);
    }

    // Marks the pair and the pair the other way round, unless a state is past the last.
    pub fn mark_both(&mut self, p: usize, q: usize)
        ensures there { p < 48 → q < 48 → (x y : ℕ) → cell_at self.new x y ≡ (if (x == p && y == q) || (x == q && y == p) then true else cell_at self.old x y) }
        ensures beyond { (p < 48 → q < 48 → ⊥) → self.new ≡ self.old }
    {
        self.mark(p, q);
        self.mark(q, p);
    }
}

impl PairTable<Option<usize>> {
    // No pair has a number.
    #[tactic(auto, using(crate::proofs::Cells::same_either))]
    pub fn unnumbered() -> PairTable<Option<usize>>
        ensures { (p q : ℕ) → cell_at result p q ≡ None }
    {
        PairTable::filled(None)
    }
}
