// The size of a table: its alphabet and its number of states, at most 48.
mod calls;

ghost use Rattle.std.specs.Prelude.{◌≤◌};

use trees::Alphabet;

#[derive(Clone, Copy)]
pub struct Measure {
    alphabet: Alphabet,
    states: usize,
    ghost few: { states ≤ 48 },
}
