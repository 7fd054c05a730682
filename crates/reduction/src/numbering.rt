// Numbering the classes of unmarked live states by their least members.
ghost use Rattle.std.specs.Prelude.{◌≡◌, ℕ, ◌<◌, ◌≤◌, true};
ghost use Rattle.pairs.specs.Cells.{cell_at};
ghost use Rattle.reduction.specs.Marking.{live_in};
ghost use Rattle.reduction.specs.Numbering.{UnmarkedAlike, Numbered, Earlier, Entered};

use crate::classes::Classes;
use liveness::Life;
use pairs::PairTable;

// The least live state below this one that is not marked with it.
fn earlier(life: &Life, marks: &PairTable<bool>, state: usize) -> Option<usize>
    ensures { Earlier (live_in life.now) (cell_at marks.now) state result }
{
    (0..state).find(|p| life.has(*p) && !marks.get(*p, state))
}

// Puts one state more into the class of an earlier one or into the next class; how many classes there are then.
fn enter(
    life: &Life,
    marks: &PairTable<bool>,
    state: usize,
    places: &mut [Option<u8>; 48],
    count: usize,
) -> usize
    requires { (state < 48) × (count ≤ state) }
    ensures { Entered (live_in life.now) (cell_at marks.now) state places.old count places.new result }
{
    match earlier(life, marks, state) {
        Some(other) => {
            places[state] = places[other];
            count
        }
        None => {
            places[state] = Some(count as u8);
            count + 1
        }
    }
}

// The classes of the live states below a number, 48 at most: two states are of one class if they are not marked.
pub(crate) fn number_classes(life: &Life, states: usize, marks: &PairTable<bool>) -> Classes
    ensures { ((q : ℕ) → live_in life.now q ≡ true → q < states) → states ≤ 48 → UnmarkedAlike (live_in life.now) (cell_at marks.now) → Numbered (live_in life.now) (cell_at marks.now) result }
{
    let mut of = [None; 48];
    let mut count = 0;
    for q in 0..states.min(48) {
        if life.has(q) {
            count = enter(life, marks, q, &mut of, count);
        }
    }
    Classes { of, count }
}
