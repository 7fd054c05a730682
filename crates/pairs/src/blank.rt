// The value that stands for none.
ghost use Rattle.std.specs.Prelude.{◌≡◌, false, None};

pub trait Blank: Copy {
    ghost blank: { Self };

    fn blank() -> Self
        ensures { result ≡ blank };
}

impl Blank for bool {
    ghost blank = { false };

    fn blank() -> bool {
        false
    }
}

impl<T: Copy> Blank for Option<T> {
    ghost blank = { None };

    fn blank() -> Option<T> {
        None
    }
}
