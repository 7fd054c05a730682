// The kinds that a page can name.
ghost use Rattle.pages.specs.Reading.{Names};

use kinds::{Cost, Kind, Marks, Residue};

#[derive(Clone, Copy, PartialEq, Eq, Debug)]
pub enum Named {
    Marks,
    Residues,
    Costs,
}

// No kind has the number.
#[derive(Clone, Copy, PartialEq, Eq, Debug)]
pub struct UnknownKind;

impl TryFrom<usize> for Named {
    type Error = UnknownKind;

    ghost try_from_gives = { Names };

    // The kind with this number.
    fn try_from(number: usize) -> Result<Named, UnknownKind> {
        match u8::try_from(number) {
            Ok(Marks::NUMBER) => Ok(Named::Marks),
            Ok(Residue::NUMBER) => Ok(Named::Residues),
            Ok(Cost::NUMBER) => Ok(Named::Costs),
            _ => Err(UnknownKind),
        }
    }
}
