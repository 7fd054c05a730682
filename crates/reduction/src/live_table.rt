// A table to read, and which of its states are live: none from 48 on.
mod calls;

ghost use Rattle.std.specs.Prelude.{◌≡◌, ℕ, ◌<◌, true};
ghost use Rattle.reduction.specs.Marking.{live_in};

use liveness::Life;
use rules::Table;

#[derive(Drop)]
pub(crate) struct LiveTable<'a, W> {
    pub(crate) table: Table<'a, W>,
    pub(crate) life: &'a Life,
    ghost few: { (q : ℕ) → live_in life.now q ≡ true → q < 48 },
}
