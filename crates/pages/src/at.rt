// An error with the number of its line.
ghost use Rattle.std.specs.Prelude.{◌≡◌};
ghost use Rattle.pages.specs.Reading.{placed};

#[derive(Clone, Copy)]
pub struct At<E> {
    pub line: usize,
    pub error: E,
}

// Says in which line an error stands.
pub fn at_line<T, E>(line: usize, res: Result<T, E>) -> Result<T, At<E>>
    ensures { result ≡ placed line res }
{
    res.map_err(|error| At { line, error })
}
