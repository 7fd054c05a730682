// A ranked alphabet: 1 to 32 symbols, numbered from 0, each with a rank of 0 to 4.
ghost use Rattle.std.specs.Prelude.{◌≡◌, ◌<◌, ◌≤◌, ℕ, [], ◌∷◌, length, slice_index};
ghost use Rattle.std.specs.List.{slice_get, All};
ghost use Rattle.automata.specs.Trees.{rank};

use crate::refusal::Refusal;
use std::array;

#[derive(Clone, Copy)]
pub struct Alphabet {
    ranks: [u8; 32],
    symbols: usize,
    ghost some: { 1 ≤ symbols },
    ghost few: { symbols ≤ 32 },
    ghost small: { (k : ℕ) → slice_index ranks k ≤ 4 },
}

// The ranks, and 0 in each place past the last.
fn padded(ranks: &[usize]) -> [u8; 32]
    requires { All (λ rank. rank ≤ 4) ranks.now }
    ensures { (k : ℕ) → k < 32 → slice_index result k ≡ slice_index ranks.now k }
{
    array::from_fn(|symbol| ranks.get(symbol).map_or(0, |rank| *rank as u8))
}

impl Alphabet {
    ghost use Rattle.trees.specs.Alphabets.{ranks_of, Formed};

    // One symbol, of rank 0.
    pub fn fresh() -> Alphabet
        ensures { ranks_of result ≡ 0 ∷ [] }
    {
        Alphabet {
            ranks: [0; 32],
            symbols: 1,
        }
    }

    // The alphabet of a list of ranks: 1 to 32 of them, each at most 4.
    pub fn new(ranks: &[usize]) -> Result<Alphabet, Refusal>
        ensures { Formed ranks.now result }
    {
        let symbols = ranks.len();
        if symbols == 0 || symbols > 32 || ranks.iter().any(|rank| *rank > 4) {
            return Err(Refusal::Ranks);
        }
        Ok(Alphabet {
            ranks: padded(ranks),
            symbols,
        })
    }

    // The ranks of the symbols, in order.
    pub fn ranks(&self) -> &[u8]
        ensures { result.now ≡ ranks_of self.now }
    {
        &self.ranks[..self.symbols]
    }

    // The number of symbols.
    pub fn len(&self) -> usize
        ensures { result ≡ length (ranks_of self.now) }
    {
        self.ranks().len()
    }

    // The rank of a symbol, if it is of the alphabet.
    pub fn rank(&self, symbol: usize) -> Option<usize>
        ensures { result ≡ slice_get (ranks_of self.now) symbol }
    {
        self.ranks().get(symbol).copied().map(usize::from)
    }

    // The rank of a symbol, and 0 for a number that is no symbol.
    #[tactic(auto, using(std::proofs::lemmas::Grind::common_steps, std::proofs::lemmas::Option::gets))]
    pub fn rank_or_zero(&self, symbol: usize) -> usize
        ensures value { result ≡ rank (ranks_of self.now) symbol }
        ensures small { result ≤ 4 }
    {
        self.rank(symbol).unwrap_or(0)
    }
}
