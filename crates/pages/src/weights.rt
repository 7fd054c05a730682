// Reading the weight of a rule.
ghost use Rattle.pages.specs.Reading.{ReadsWeight};

use kinds::{Kind, KindRefusal};
use layout::read_code;

// The weight whose code stands in a field of twelve columns.
pub fn read_weight<W: Kind>(field: &[u8]) -> Result<W, KindRefusal>
    ensures { ReadsWeight W.Kind.weights W.Kind.stands field.now result }
{
    match read_code(field) {
        Some(code) => W::read(code),
        None => Err(KindRefusal::NoWeight),
    }
}
