// The refusals of the table layer; each has a fixed number.
ghost use Rattle.std.specs.Prelude.{◌≡◌};
ghost use Rattle.trees.specs.Refusals.{refusal_number};

#[derive(Clone, Copy, PartialEq, Eq, Debug)]
pub enum Refusal {
    // no rank, more than 32, or one above 4
    Ranks,
    // more than 48 states
    States,
    // a state not below the number of states
    State,
    // a symbol not in the alphabet
    Symbol,
    // the number of children is not the rank
    Children,
    // the left side has a rule
    Taken,
    // as many rules as the memory has places, or 1,024
    Full,
    // a push at an accepting state
    Accepting,
    // not a tree list; the first bad entry, 0 for a wrong length
    TreeList(usize),
    // the alphabets do not agree
    Alphabets,
    // a tree list or a work list is too short
    Short,
}

impl Refusal {
    // the number by which a page names the refusal
    pub fn number(&self) -> u8
        ensures { result ≡ refusal_number self.now }
    {
        match self {
            Refusal::Ranks => 1,
            Refusal::States => 2,
            Refusal::State => 3,
            Refusal::Symbol => 4,
            Refusal::Children => 5,
            Refusal::Taken => 6,
            Refusal::Full => 7,
            Refusal::Accepting => 9,
            Refusal::TreeList(_) => 10,
            Refusal::Alphabets => 11,
            Refusal::Short => 12,
        }
    }
}
