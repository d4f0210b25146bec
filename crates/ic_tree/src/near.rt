//! Places within the limits of the stored form, as tokens keep them.
ghost use Rattle.std.specs.Prelude.{◌≡◌, false, true};
ghost use Rattle.ic_laws.specs.Position.{column_count, is_part_within as part_within, is_place_within as place_within, is_within, row_count};

use ic_laws::{LAST_COLUMN, LAST_ROW, PackedPlace, Place, Position, RefPart, RefToken};

/// A reference whose place is not within the limits.
#[derive(Drop)]
pub struct FarReference {
    pub reference: RefToken,
    ghost far: { place_within reference.place ≡ false },
}

/// A place within the limits of the stored form.
#[derive(Drop)]
pub struct NearPlace {
    place: PackedPlace,
    ghost within: { place_within place ≡ true },
}

impl NearPlace {
    /// This place.
    pub fn new(place: Place) -> NearPlace
        requires { place_within place ≡ true }
        ensures { result.place ≡ place }
    {
        NearPlace {
            place: PackedPlace::new(place),
        }
    }

    /// The place alone.
    pub fn packed(self) -> PackedPlace
        ensures same { result ≡ self.place }
        ensures within { place_within result ≡ true }
    {
        self.place
    }
}

fn is_row_within(row: Position) -> bool
    ensures { result ≡ is_within row_count row }
{
    match row {
        Position::Abs(n) => 1 <= n && n <= LAST_ROW,
        Position::Rel(k) => k.unsigned_abs() < LAST_ROW.unsigned_abs(),
    }
}

fn is_column_within(column: Position) -> bool
    ensures { result ≡ is_within column_count column }
{
    match column {
        Position::Abs(n) => 1 <= n && n <= LAST_COLUMN,
        Position::Rel(k) => k.unsigned_abs() < LAST_COLUMN.unsigned_abs(),
    }
}

fn is_part_within(part: RefPart) -> bool
    ensures { result ≡ part_within part }
{
    is_row_within(part.row) && is_column_within(part.column)
}

/// Whether a place is within the limits of the stored form.
pub fn is_place_within(place: Place) -> bool
    ensures { result ≡ place_within place }
{
    match place {
        Place::Cell(part) => is_part_within(part),
        Place::Range(first, last) => is_part_within(first) && is_part_within(last),
    }
}
