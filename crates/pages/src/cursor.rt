// A page, where its next line begins, and the number of that line.
mod calls;

ghost use Rattle.std.specs.Prelude.{◌+◌, ◌≤◌};

#[derive(Clone, Copy)]
pub struct Cursor<'p> {
    page: &'p [u8],
    at: usize,
    line: usize,
    ghost near: { line ≤ at + 1 },
}
