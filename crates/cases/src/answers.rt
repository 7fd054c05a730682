// What calls answer, in values that can be compared.
ghost use Rattle.std.specs.Prelude.{◌≡◌};
ghost use Rattle.cases.specs.Answered.{numbered, answer, answered};

use kinds::Kind;
use rules::Weighing;
use trees::Refusal;

// What weighing a tree says, with a weight by its code.
#[derive(Clone, Copy, PartialEq, Eq, Debug)]
pub enum Answer {
    NoRun,
    Ended(usize),
    Weighs(usize, i64),
}

impl<W: Kind> From<Weighing<W>> for Answer {
    ghost from_gives = { λ weighing result. result ≡ answer (λ v. W.Kind.weights.code (W.Kind.stands v)) weighing };

    fn from(weighing: Weighing<W>) -> Answer {
        match weighing {
            Weighing::NoRun => Answer::NoRun,
            Weighing::Ended { state } => Answer::Ended(state),
            Weighing::Weighs { state, weight } => Answer::Weighs(state, weight.code()),
        }
    }
}

// What a call gives, with its refusal by its number.
pub fn numbered<T>(res: Result<T, Refusal>) -> Result<T, u8>
    ensures { result ≡ numbered res }
{
    res.map_err(|refusal| refusal.number())
}

// What a call of weigh gives, with a weight by its code and its refusal by its number.
pub fn answer_of<W: Kind>(res: Result<Weighing<W>, Refusal>) -> Result<Answer, u8>
    ensures { result ≡ answered (λ v. W.Kind.weights.code (W.Kind.stands v)) res }
{
    numbered(res).map(Answer::from)
}
