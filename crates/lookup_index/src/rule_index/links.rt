// Reading and writing the links of an index.
ghost use Rattle.std.specs.Prelude.{◌≡◌, ℕ, ◌+◌, ◌<◌, if◌then◌else◌, nat_eq, slice_index};
ghost use Rattle.lookup_index.specs.Indexes.{head_of, next_of};

use crate::rule_index::RuleIndex;

// What stands at a place, and 0 past the end.
fn read(links: &[u16; 1024], place: usize) -> usize
    ensures { result ≡ slice_index links.now place }
{
    if place < 1024 {
        usize::from(links[place])
    } else {
        0
    }
}

impl RuleIndex {
    // No links.
    pub(crate) fn empty() -> RuleIndex
        ensures { (h : ℕ) → head_of result h ≡ 0 }
    {
        RuleIndex {
            heads: [0; 1024],
            nexts: [0; 1024],
        }
    }

    // The link to the first rule of a hash.
    pub(crate) fn head(&self, hash: usize) -> usize
        ensures { result ≡ head_of self.now hash }
    {
        read(&self.heads, hash)
    }

    // The link to the next rule of the same hash.
    pub(crate) fn next(&self, place: usize) -> usize
        ensures { result ≡ next_of self.now place }
    {
        read(&self.nexts, place)
    }

    // Puts a place before the others of its hash.
    pub(crate) fn put_first(&mut self, hash: usize, place: usize)
        requires { (hash < 1024) × (place < 1024) }
        ensures heads { (h : ℕ) → head_of self.new h ≡ (if nat_eq h hash then place + 1 else head_of self.old h) }
        ensures nexts { (i : ℕ) → next_of self.new i ≡ (if nat_eq i place then head_of self.old hash else next_of self.old i) }
    {
        self.nexts[place] = self.heads[hash];
        self.heads[hash] = (place + 1) as u16;
    }
}
