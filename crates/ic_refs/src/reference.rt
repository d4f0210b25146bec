/// A cell: its sheet as the caller numbers it, its row and its column from 1.
#[derive(Clone, Copy, Debug, PartialEq)]
pub struct CellReferenceIndex {
    pub sheet: u32,
    pub row: i32,
    pub column: i32,
}

/// An area of a sheet: its first cell, and its width and height in cells.
#[derive(Clone, Copy)]
pub struct Area {
    pub sheet: u32,
    pub row: i32,
    pub column: i32,
    pub width: i32,
    pub height: i32,
}

/// A cell as it is written in the A1 form: its row and its column from 1, and which of them have a dollar sign.
#[derive(Clone, Copy, Debug, PartialEq)]
pub struct A1Reference {
    pub row: i32,
    pub column: i32,
    pub absolute_row: bool,
    pub absolute_column: bool,
}

/// A reference whose sheet was found: a cell, or the two corners of a range.
#[derive(Clone, Copy, Debug, PartialEq)]
pub enum ParsedReference {
    CellReference(CellReferenceIndex),
    Range(CellReferenceIndex, CellReferenceIndex),
}
