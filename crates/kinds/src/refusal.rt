// The one refusal of this layer.
ghost use Rattle.std.specs.Prelude.{◌≡◌};
ghost use Rattle.kinds.specs.Reading.{refusal_number};

#[derive(Clone, Copy, PartialEq, Eq, Debug)]
pub enum KindRefusal {
    // no weight has this code
    NoWeight,
}

impl KindRefusal {
    // the number by which a page names the refusal
    pub fn number(&self) -> u8
        ensures { result ≡ refusal_number self.now }
    {
        match self {
            KindRefusal::NoWeight => 8,
        }
    }
}
