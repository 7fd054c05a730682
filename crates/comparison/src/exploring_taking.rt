// Taking up a node that adds something.
ghost use Rattle.std.specs.Prelude.{◌≡◌, ℕ, ◌+◌, ◌<◌, ◌≤◌, ◌&&◌, length, if◌then◌else◌, Some, ◌==◌, nat_eq};
ghost use Rattle.automata.specs.Runs.{At};
ghost use Rattle.pairs.specs.Cells.{cell_at};
ghost use Rattle.rules.specs.declared.side.Side.TheVariants.{First, Second};
ghost use Rattle.rules.specs.Running.{run_at};
ghost use Rattle.rules.specs.Shapes.{ranks_in};
ghost use Rattle.comparison.specs.Forest.{Forest};
ghost use Rattle.comparison.specs.Scanning.{two, runs_in, Told};
ghost use Rattle.comparison.specs.Exploring.{LiveWithin, Pairing, Taken};

use crate::differing::differs;
use crate::exploring_outcome::Outcome;
use crate::planting::plant;
use crate::scan_finding::Finding;
use crate::scan_tables::LiveTables;
use crate::scan_verdict::Verdict;
use kinds::Kind;
use pairs::PairTable;
use rules::{Place, Side, run_of};

// Notes the entry as that of the pair of its states.
fn note_pair<W: Kind>(work: &[Place<W>], entry: usize, pairs: &mut PairTable<Option<usize>>)
    requires { entry < length work.now }
    ensures { (a b : At W.Weight) → run_at W.Kind.stands First work.now entry ≡ Some a → run_at W.Kind.stands Second work.now entry ≡ Some b → a.state < 48 → b.state < 48 → (x y : ℕ) → cell_at pairs.new x y ≡ (if nat_eq x a.state && y == b.state then Some entry else cell_at pairs.old x y) }
{
    let Some(one) = run_of(work, Side::First, entry) else {
        return;
    };
    let Some(other) = run_of(work, Side::Second, entry) else {
        return;
    };
    pairs.set(one.state, other.state, Some(entry));
}

// Plants the node behind the first `len` entries. A new pair is noted if both tables weigh its tree alike; else the search ends here.
pub fn take_up<W: Kind>(
    tables: &LiveTables<W>,
    work: &mut [Place<W>],
    len: usize,
    pairs: &mut PairTable<Option<usize>>,
    finding: Finding,
) -> Option<Outcome>
    requires same { ranks_in tables.now.tables.first.shape.now ≡ ranks_in tables.now.tables.second.shape.now }
    requires room { len < length work.old }
    requires earlier { (p q e : ℕ) → cell_at pairs.old p q ≡ Some e → e < len }
    requires told { Told W.Kind.weights (two W.Kind.stands tables.now) (runs_in W.Kind.stands work.old) (cell_at pairs.old) finding }
    ensures { (base : ℕ) → base ≤ len → LiveWithin (two W.Kind.stands tables.now) → Forest W.Kind.weights W.Kind.stands (two W.Kind.stands tables.now).first (two W.Kind.stands tables.now).second work.old len → Pairing (two W.Kind.stands tables.now) (runs_in W.Kind.stands work.old) (cell_at pairs.old) base len → Taken W.Kind.weights W.Kind.stands (two W.Kind.stands tables.now) base work.old work.new (cell_at pairs.old) (cell_at pairs.new) len result }
{
    plant(&tables.tables, work, len, finding.node);
    match finding.verdict {
        Verdict::NewPair => {
            if differs(&tables.tables, work, len) {
                return Some(Outcome::Differs { entry: len });
            }
            note_pair(work, len, pairs);
            None
        }
        Verdict::Lone { side } => Some(Outcome::Lone { side, entry: len }),
        Verdict::Uneven { other } => Some(Outcome::Uneven { entry: len, other }),
    }
}
