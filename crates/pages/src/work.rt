// A work list that is long enough to compare any two tables.
pub mod calls;

ghost use Rattle.std.specs.Prelude.{◌≡◌, vec_len};

use rules::Place;

#[derive(Drop)]
pub struct Work<W> {
    pub places: Vec<Place<W>>,
    ghost enough: { vec_len places ≡ 4802 },
}
