ghost use Rattle.std.specs.Prelude.{◌≡◌, ◌+ℤ◌};
ghost use Rattle.ic_laws.specs.Position.{is_column, is_row};
ghost use Rattle.ic_grid.specs.Block.{area_of, block_at, blocks_meet, is_area, first_place, is_block_within, is_in_block, is_in_sheet, is_in_span, is_single, is_span_within, same_place, spans_meet};

use ic_cells::ArrayKind;
use ic_laws::{LAST_COLUMN, LAST_ROW};

/// The whole sheet.
const WHOLE_SHEET: Block = Block {
    row: 1,
    column: 1,
    width: LAST_COLUMN,
    height: LAST_ROW,
};

/// A block of places of a sheet: the row and the column of the first, from 1, and how many columns and rows it has.
#[derive(Clone, Copy)]
pub struct Block {
    pub row: i32,
    pub column: i32,
    pub width: i32,
    pub height: i32,
}

/// The area of an array formula and its kind.
#[derive(Clone, Copy)]
pub struct Array {
    pub block: Block,
    pub kind: ArrayKind,
}

/// The number after the last of so many from the first on.
fn end(first: i32, count: i32) -> i64
    ensures { result ≡ first +ℤ count }
{
    i64::from(first) + i64::from(count)
}

/// Whether a number is one of so many from the first on.
#[tactic(auto, unfolding(crate::specs::Block::is_between))]
fn is_in_span(first: i32, count: i32, number: i32) -> bool
    ensures { result ≡ is_in_span first count number }
{
    first <= number && i64::from(number) < end(first, count)
}

/// Whether two runs of numbers, each of so many from the first on, have one in common.
#[tactic(auto, unfolding(crate::specs::Block::spans_meet))]
fn spans_meet(first: i32, count: i32, other: i32, many: i32) -> bool
    ensures { result ≡ spans_meet first count other many }
{
    i64::from(first) < end(other, many) && i64::from(other) < end(first, count)
}

/// Whether so many numbers from the first on are among so many others.
#[tactic(auto, unfolding(crate::specs::Block::is_span_within))]
fn is_span_within(first: i32, count: i32, other: i32, many: i32) -> bool
    ensures { result ≡ is_span_within first count other many }
{
    other <= first && end(first, count) <= end(other, many)
}

/// Whether two places are one.
pub fn is_same(place: (i32, i32), other: (i32, i32)) -> bool
    ensures { result ≡ same_place place other }
{
    place.0 == other.0 && place.1 == other.1
}

/// Whether a number is that of a row of the sheet.
pub fn is_row(number: i32) -> bool
    ensures { result ≡ is_row number }
{
    1 <= number && number <= LAST_ROW
}

/// Whether a number is that of a column of the sheet.
pub fn is_column(number: i32) -> bool
    ensures { result ≡ is_column number }
{
    1 <= number && number <= LAST_COLUMN
}

/// Whether a place is one of the sheet.
pub fn is_in_sheet(place: (i32, i32)) -> bool
    ensures { result ≡ is_in_sheet place }
{
    is_row(place.0) && is_column(place.1)
}

impl Block {
    /// The block of so many columns and rows from a place on.
    pub fn at(place: (i32, i32), width: i32, height: i32) -> Block
        ensures { result ≡ block_at place width height }
    {
        Block {
            row: place.0,
            column: place.1,
            width,
            height,
        }
    }

    /// Whether it has a place at least, and lies in the sheet.
    pub fn is_area(&self) -> bool
        ensures { result ≡ is_area self.now }
    {
        self.width >= 1 && self.height >= 1 && self.is_within(&WHOLE_SHEET)
    }

    /// Whether it has the place at a row and a column.
    pub fn contains(&self, row: i32, column: i32) -> bool
        ensures { result ≡ is_in_block self.now (row, column) }
    {
        is_in_span(self.row, self.height, row) && is_in_span(self.column, self.width, column)
    }

    /// Its first place.
    pub fn first(&self) -> (i32, i32)
        ensures { result ≡ first_place self.now }
    {
        (self.row, self.column)
    }

    /// How many columns and rows it has.
    pub fn area(&self) -> (i32, i32)
        ensures { result ≡ area_of self.now }
    {
        (self.width, self.height)
    }

    /// The number after its last column.
    pub fn end_column(&self) -> i64
        ensures { result ≡ self.now.column +ℤ self.now.width }
    {
        end(self.column, self.width)
    }

    /// Whether a place is one of it.
    pub fn has(&self, place: (i32, i32)) -> bool
        ensures { result ≡ is_in_block self.now place }
    {
        self.contains(place.0, place.1)
    }

    /// Whether it has a place in common with another block. Both have a place at least.
    pub fn meets(&self, other: &Block) -> bool
        ensures { result ≡ blocks_meet self.now other.now }
    {
        spans_meet(self.row, self.height, other.row, other.height)
            && spans_meet(self.column, self.width, other.column, other.width)
    }

    /// Whether each of its places is one of another block.
    pub fn is_within(&self, other: &Block) -> bool
        ensures { result ≡ is_block_within self.now other.now }
    {
        is_span_within(self.row, self.height, other.row, other.height)
            && is_span_within(self.column, self.width, other.column, other.width)
    }

    /// Whether it is one place alone.
    pub fn is_single(&self) -> bool
        ensures { result ≡ is_single self.now }
    {
        self.width == 1 && self.height == 1
    }
}
