//! Merged cells.
ghost use Rattle.std.specs.Prelude.{◌≡◌};
ghost use Rattle.ic_grid.specs.Merges.{covers, is_covered, is_merged, meets_merge, merged_block};

use crate::Block;
use crate::block::is_same;
use ic_cells::Merge;

/// The block of merged cells.
pub fn merged_block(merge: &Merge) -> Block
    ensures { result ≡ merged_block merge.now }
{
    Block {
        row: merge.row,
        column: merge.column,
        width: merge.width,
        height: merge.height,
    }
}

/// Whether merged cells cover a place: it is one of them, but not the first.
fn covers(merge: &Merge, row: i32, column: i32) -> bool
    ensures { result ≡ covers (row, column) merge.now }
{
    merged_block(merge).contains(row, column) && !is_same((merge.row, merge.column), (row, column))
}

/// Whether a place is covered.
pub fn is_covered(merges: &[Merge], row: i32, column: i32) -> bool
    ensures { result ≡ is_covered merges.now (row, column) }
{
    merges.iter().any(|merge| covers(merge, row, column))
}

/// Whether a block meets merged cells.
pub fn meets_merge(merges: &[Merge], block: &Block) -> bool
    ensures { result ≡ meets_merge merges.now block.now }
{
    merges.iter().any(|merge| merged_block(merge).meets(block))
}

/// Whether a place is one of merged cells.
pub fn is_merged(merges: &[Merge], place: (i32, i32)) -> bool
    ensures { result ≡ is_merged merges.now place }
{
    merges.iter().any(|merge| merged_block(merge).has(place))
}
