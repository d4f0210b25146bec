ghost use Rattle.std.specs.Prelude.{◌≡◌, chars, option_map};
ghost use Rattle.std.specs.Option.{option_copied};

use crate::Text;

/// The last row of a sheet, from 1.
pub const LAST_ROW: i32 = 1_048_576;

/// The last column of a sheet, from 1.
pub const LAST_COLUMN: i32 = 16_384;

/// A row or a column of a reference.
#[derive(Clone, Copy)]
pub enum Position {
    /// The row or the column of this number, from 1.
    Abs(i32),
    /// The one so many further than the cell that holds the reference.
    Rel(i32),
}

/// One corner of a reference.
#[derive(Clone, Copy)]
pub struct RefPart {
    pub row: Position,
    pub column: Position,
}

/// What a reference refers to on its sheet. The corners of a range stand as they were written.
#[derive(Clone, Copy)]
pub enum Place {
    Cell(RefPart),
    Range(RefPart, RefPart),
}

/// A reference as it stands in a formula's text: the name of a sheet, if one is written, and a place.
#[derive(Drop)]
pub struct RefToken {
    pub sheet: Option<Text>,
    pub place: Place,
}

/// The name of a reference's sheet, lent. None where none is written.
pub fn lent_name(sheet: &Option<Text>) -> Option<&str>
    ensures { option_map chars (option_copied result) ≡ sheet.now }
{
    match sheet {
        None => None,
        Some(name) => Some(name.as_str()),
    }
}
