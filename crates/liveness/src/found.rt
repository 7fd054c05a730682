// States in the order of their discovery, each with how it was found. The first `count` places of `order` hold them.
ghost use Rattle.std.specs.Prelude.{◌≡◌, ◌<◌, ◌≤◌, ⊤, false, length, take, slice_index_or};
ghost use Rattle.automata.specs.Merging.{all_in};
ghost use Rattle.liveness.specs.Listings.{flags_of, how_of, none_found, found_too};

use std::alloc::AllocError;

#[derive(Drop)]
pub struct Found<T> {
    pub how: [Option<T>; 48],
    pub order: [usize; 48],
    pub count: usize,
}

impl<T: Copy> Clone for Found<T> {
    ghost is_clone = { λ found clone. clone ≡ found };

    ghost is_infallible = { λ _. ⊤ };

    fn clone(&self) -> Result<Found<T>, AllocError> {
        Ok(*self)
    }
}

impl<T: Copy> Copy for Found<T> {}

impl<T: Copy> Found<T> {
    // No state.
    pub(crate) fn none() -> Found<T>
        ensures { result ≡ none_found }
    {
        Found {
            how: [None; 48],
            order: [0; 48],
            count: 0,
        }
    }

    // How many states were found.
    pub fn len(&self) -> usize
        ensures { result ≡ self.now.count }
    {
        self.count
    }

    // The states in the order of their discovery.
    pub fn states(&self) -> &[usize]
        ensures states { result.now ≡ take self.now.count self.now.order }
        ensures all { self.now.count ≤ 48 → length result.now ≡ self.now.count }
    {
        &self.order[..self.len().min(48)]
    }

    // How a state was found, if it was.
    pub fn how(&self, state: usize) -> Option<T>
        ensures { result ≡ how_of self.now state }
    {
        self.how.get(state).copied().flatten()
    }

    // Whether a state was found.
    pub fn has(&self, state: usize) -> bool
        ensures { result ≡ slice_index_or (flags_of self.now) state false }
    {
        self.how(state).is_some()
    }

    // Whether all these states were found.
    pub fn has_all(&self, states: &[u8]) -> bool
        ensures { result ≡ all_in (λ q. slice_index_or (flags_of self.now) q false) states.now }
    {
        states.iter().all(
            |state| -> bool
                ensures { result ≡ slice_index_or (flags_of self.entry.now) state.now false }
            { self.has(usize::from(*state)) },
        )
    }

    // Adds a state.
    pub(crate) fn add(&mut self, state: usize, how: T)
        requires { (state < 48) × (self.old.count < 48) }
        ensures { self.new ≡ found_too self.old state how }
    {
        let last = self.len();
        self.how[state] = Some(how);
        self.order[last] = state;
        self.count = last + 1;
    }
}
