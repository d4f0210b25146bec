//! A new sheet.
ghost use Rattle.std.specs.Prelude.{◌≡◌, []};
ghost use Rattle.std.specs.FinMap as finite;
ghost use Rattle.ic_grid.specs.Whole.{IsGrid};

use crate::Grid;
use ic_cells::{LineMap, PlaceMap};
use ic_laws::Items;
use std::alloc::Global;

impl Grid {
    /// No cells and no merged cells, and nothing is set for a row or a column. No memory is taken.
    pub fn new(alloc: Global) -> Grid
        ensures cells { result.cells ≡ finite.empty }
        ensures rows { result.rows ≡ finite.empty }
        ensures columns { result.columns ≡ finite.empty }
        ensures merges { result.merged_cells ≡ [] }
        ensures whole { IsGrid result }
    {
        Grid {
            cells: PlaceMap::new(alloc),
            rows: LineMap::new(alloc),
            columns: LineMap::new(alloc),
            merged_cells: Items::from(Vec::new(alloc)),
        }
    }
}
