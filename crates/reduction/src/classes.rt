// Classes of states, numbered from 0: the class of each state that stays, and none for one that is dropped.
mod calls;

ghost use Rattle.std.specs.Prelude.{◌≤◌};

#[derive(Clone, Copy)]
pub struct Classes {
    pub of: [Option<u8>; 48],
    pub count: usize,
    ghost few: { count ≤ 48 },
}
