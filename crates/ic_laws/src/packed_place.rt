//! A place in the room that a node of a tree has for it.
ghost use Rattle.std.specs.Prelude.{◌≡◌, ◌<ℤ◌, pos, true};
ghost use Rattle.ic_laws.specs.Position.{is_part_within, is_place_within, is_within, part_of, position_of, row_count};

use crate::{Place, Position, RefPart};
use std::marker::Model;

/// What the number of a distance is more than the distance.
const ORIGIN: i32 = 4_194_304;

/// The numbers of distances begin here.
const LIMIT: i32 = 2_097_152;

/// A place within the limits in 16 bytes, where a `Place` takes 36: trees keep their references so. Contracts see the
/// place.
#[derive(Drop)]
pub struct PackedPlace {
    row: i32,
    column: i32,
    last_row: i32,
    last_column: i32,
}

impl Model for PackedPlace {
    ghost use Rattle.ic_laws.specs.declared.reference.Place.{Place};
    ghost use Rattle.ic_laws.specs.Position.{place_of};

    ghost Value = { Place };

    ghost view = { λ p. place_of p.row p.column p.last_row p.last_column };
}

impl PackedPlace {
    /// This place.
    pub fn new(place: Place) -> PackedPlace
        requires { is_place_within place ≡ true }
        ensures { result ≡ place }
    {
        match place {
            Place::Cell(part) => {
                let (row, column) = numbers(part);
                PackedPlace {
                    row,
                    column,
                    last_row: 0,
                    last_column: 0,
                }
            }
            Place::Range(first, last) => {
                let (row, column) = numbers(first);
                let (last_row, last_column) = numbers(last);
                PackedPlace {
                    row,
                    column,
                    last_row,
                    last_column,
                }
            }
        }
    }

    /// A copy.
    pub fn copy(&self) -> PackedPlace
        ensures { result ≡ self.now }
    {
        PackedPlace {
            row: self.row,
            column: self.column,
            last_row: self.last_row,
            last_column: self.last_column,
        }
    }

    /// The place itself.
    pub fn place(&self) -> Place
        ensures { result ≡ self.now }
    {
        let first = part(self.row, self.column);
        if self.last_row > 0 {
            Place::Range(first, part(self.last_row, self.last_column))
        } else {
            Place::Cell(first)
        }
    }
}

// The numbers of a corner.
fn numbers(part: RefPart) -> (i32, i32)
    requires { is_part_within part ≡ true }
    ensures part { part_of result.0 result.1 ≡ part }
    ensures some { pos 0 <ℤ result.0 }
{
    (number(part.row), number(part.column))
}

// The number of a position.
fn number(position: Position) -> i32
    requires { is_within row_count position ≡ true }
    ensures position { position_of result ≡ position }
    ensures some { pos 0 <ℤ result }
{
    match position {
        Position::Abs(number) => number,
        Position::Rel(distance) => distance + ORIGIN,
    }
}

// The corner of two numbers.
fn part(row: i32, column: i32) -> RefPart
    ensures { result ≡ part_of row column }
{
    RefPart {
        row: position(row),
        column: position(column),
    }
}

// The position of a number.
fn position(number: i32) -> Position
    ensures { result ≡ position_of number }
{
    if number < LIMIT {
        Position::Abs(number)
    } else {
        Position::Rel(number - ORIGIN)
    }
}
