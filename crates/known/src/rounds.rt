// A round of calls on two tables that weigh alike.
ghost use Rattle.std.specs.Prelude.{◌≡◌, ℕ, ◌≤◌, [], ◌∷◌, length, pos};
ghost use Rattle.kinds.specs.Residues.{residues};
ghost use Rattle.rules.specs.Books.{Opens};
ghost use Rattle.tables.specs.Histories.{Lived};
ghost use Rattle.tables.specs.Images.{draft_holds, closed_holds};
ghost use Rattle.known.specs.Rounds.{chain_opening, first_calls, second_calls, entries, Filled, ReducedChain, Asked, Rounded};

use crate::shown::Shown;
use kinds::{Kind, Residue};
use rules::{Measure, Place, Rule};
use tables::{Closed, Draft};
use trees::{Node, Refusal};

// The residue with this code, or one if there is none.
fn residue(code: i64) -> Residue
    ensures { (w : Residue) → pos w.code ≡ code → result ≡ w }
{
    Residue::read(code).unwrap_or(Residue::one())
}

// The tree 1(0).
fn tree() -> [Node; 2]
    ensures { result ≡ entries }
{
    [
        Node {
            symbol: 0,
            children: [0; 4],
        },
        Node {
            symbol: 1,
            children: [0, 0, 0, 0],
        },
    ]
}

// Drafts the rules 0 → 0 / low and 1(0) → 1 / high, with state 1 accepting.
pub fn chain<W: Kind>(draft: &mut Draft<'_, W>, low: W, high: W) -> Result<(), Refusal>
    ensures { (places : ℕ) → Opens (0 ∷ 1 ∷ []) 2 places (draft_holds W.Kind.stands draft.old) → Filled places (W.Kind.stands low) (W.Kind.stands high) (draft_holds W.Kind.stands draft.new) result }
{
    draft.accept(1)?;
    draft.add(0, &[], 0, low)?;
    draft.add(1, &[0], 1, high)
}

// Pushes the state 0 by 2, and reduces.
fn push_and_reduce(
    table: &mut Closed<'_, Residue>,
    work: &mut [Place<Residue>],
) -> Result<(usize, usize), Refusal>
    ensures { (places : ℕ) → 2 ≤ places → Lived residues (chain_opening places) first_calls (closed_holds (λ v. v) table.old) → ReducedChain places (length work.old) (closed_holds (λ v. v) table.new) result }
{
    table.push(0, residue(2))?;
    table.reduce(work)
}

// Pushes and reduces the first table, weighs the tree 1(0) in it, and compares it with the second.
fn ask(
    first: &mut Closed<'_, Residue>,
    second: &mut Closed<'_, Residue>,
    list: &mut [Node],
    work: &mut [Place<Residue>],
) -> Result<Shown, Refusal>
    ensures { (n m : ℕ) → 2 ≤ n → 2 ≤ m → Lived residues (chain_opening n) first_calls (closed_holds (λ v. v) first.old) → Lived residues (chain_opening m) second_calls (closed_holds (λ v. v) second.old) → Asked (length list.old) (length work.old) result }
{
    let states = push_and_reduce(first, work)?;
    let weighing = first.weigh(&tree(), work)?;
    let comparison = first.compare(second, list, work)?;
    Ok(Shown {
        weighing,
        states,
        comparison,
    })
}

// A round of every call on two tables that weigh alike: the chains with the weights 4, 8 and 2, 16.
pub fn round(
    first_memory: &mut [Rule<Residue>],
    second_memory: &mut [Rule<Residue>],
    list: &mut [Node],
    work: &mut [Place<Residue>],
) -> Result<Shown, Refusal>
    ensures { Rounded (length first_memory.old) (length second_memory.old) (length list.old) (length work.old) result }
{
    let mut measure = Measure::fresh();
    measure.measure(&[0, 1], 2)?;
    let mut draft = Draft::<Residue>::open(&measure, first_memory);
    chain(&mut draft, residue(4), residue(8))?;
    let mut first = draft.close();
    let mut other = Draft::<Residue>::open(&measure, second_memory);
    chain(&mut other, residue(2), residue(16))?;
    let mut second = other.close();
    ask(&mut first, &mut second, list, work)
}
