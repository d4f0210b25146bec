//! Writing an array.
ghost use Rattle.std.specs.Prelude.{◌≡◌, ◌<◌, true, false, length, IfErr, IfOk, OnErr, OnOk, Ok};
ghost use Rattle.ic_grid.specs.Block.{block_at, first_place, is_area};
ghost use Rattle.ic_grid.specs.Calls.{IsRefusal, can_write_array};
ghost use Rattle.ic_grid.specs.Conditions.{AreArrays, AreInSheet};
ghost use Rattle.ic_grid.specs.Merges.{meets_merge};
ghost use Rattle.ic_grid.specs.Prepare.{loosened_in};
ghost use Rattle.ic_grid.specs.Rows.{place_count, placed};
ghost use Rattle.ic_grid.specs.Shape.{celled};
ghost use Rattle.ic_grid.specs.Spill.{unquoted};
ghost use Rattle.ic_grid.specs.Whole.{IsGrid, IsStyled};
ghost use Rattle.ic_grid.specs.Written.{StartWith, all_blank, blank_cell, written_style_of, with_array};

use crate::block::is_same;
use crate::changes::{next_place, put_all};
use crate::prepare::prepare_block;
use crate::room::fill_up;
use crate::{Block, Grid, GridError};
use ic_cells::{ArrayKind, ArrayValue, Cell, PlaceMap, SpillValue, Styles};
use ic_laws::{Boxed, OutOfMemory};
use std::alloc::Global;

/// The number of a style without its quote flag: where no style is so, one is put at the end.
fn unquoted(styles: &mut Styles, number: usize) -> Result<usize, OutOfMemory>
    requires { number < length styles.old }
    ensures number { IfOk result (λ n. n ≡ (unquoted styles.old number).0) }
    ensures styles { OnOk result (styles.new ≡ (unquoted styles.old number).1) }
    ensures err { OnErr result (styles.new ≡ styles.old) }
{
    if styles.style_is_quote_prefix(number) {
        let plain = styles.get_style_without_quote_prefix(number)?;
        Ok(plain)
    } else {
        Ok(number)
    }
}

/// The cell of an array at a place of its block: its formula at the first one, which has no value, and a cell of its spill at
/// each other, which has the empty text. Only memory can be missing.
fn blank_cell(
    alloc: Global,
    block: &Block,
    f: usize,
    s: usize,
    place: (i32, i32),
) -> Result<Cell, OutOfMemory>
    ensures { IfOk result (λ cell. cell ≡ blank_cell block.now f s place) }
{
    let anchor = block.first();
    if is_same(place, anchor) {
        Ok(Cell::ArrayFormula {
            kind: ArrayKind::Cse,
            f,
            s,
            r: block.area(),
            v: ArrayValue::unevaluated(),
        })
    } else {
        let text = Boxed::from_str(alloc, "")?;
        Ok(Cell::SpillCell {
            s,
            a: anchor,
            v: SpillValue::Text(text),
        })
    }
}

/// How many places a block has.
fn place_count(block: &Block) -> usize
    requires { is_area block.now ≡ true }
    ensures { result ≡ place_count block.now }
{
    block.width as usize * block.height as usize
}

/// Puts the cells of an array into a block; each array that has a cell in it is released first.
fn put_array(cells: &mut PlaceMap<Cell>, block: &Block, items: Vec<Cell>) -> Result<(), OutOfMemory>
    requires inside { AreInSheet celled cells.old }
    requires arrays { AreArrays celled cells.old }
    requires area { is_area block.now ≡ true }
    requires count { length items.items ≡ place_count block.now }
    ensures ok { OnOk result (cells.new ≡ placed block.now (first_place block.now) items.items
        (loosened_in celled block.now cells.old)) }
    ensures err { OnErr result (cells.new ≡ cells.old) }
{
    fill_up(cells, block)?;
    prepare_block(cells, block);
    put_all(cells, block, items);
    Ok(())
}

impl Grid {
    /// The number of the style that a place gets when something is written there.
    fn written_style(&self, styles: &mut Styles, place: (i32, i32)) -> Result<usize, OutOfMemory>
        requires some { 0 < length styles.old }
        requires styled { IsStyled styles.old self.now }
        ensures number { IfOk result (λ n. n ≡ (written_style_of self.now styles.old place).0) }
        ensures styles { OnOk result (styles.new ≡ (written_style_of self.now styles.old place).1) }
        ensures err { OnErr result (styles.new ≡ styles.old) }
    {
        let number = self.style_of_place(place);
        unquoted(styles, number)
    }

    /// The cells of an array for a block, by rows. Room for all of them is made first.
    fn blank_cells(
        &self,
        styles: &mut Styles,
        block: &Block,
        f: usize,
    ) -> Result<Vec<Cell>, OutOfMemory>
        requires area { is_area block.now ≡ true }
        requires some { 0 < length styles.old }
        requires styled { IsStyled styles.old self.now }
        ensures cells { IfOk result (λ items. items.items
            ≡ (all_blank self.now block.now f styles.old).0) }
        ensures styles { OnOk result (styles.new
            ≡ (all_blank self.now block.now f styles.old).1) }
        ensures more { StartWith styles.new styles.old }
    {
        let alloc = self.cells.alloc();
        let mut items = Vec::new(alloc);
        items.reserve(place_count(block))?;
        let mut at = block.first();
        'places: while block.has(at) {
            let s = self.written_style(styles, at)?;
            let cell = blank_cell(alloc, block, f, s, at)?;
            items.push(cell)?;
            at = next_place(block, at);
        }
        Ok(items)
    }

    /// Writes an array into a block. Where memory runs out, styles may have been added.
    fn enter_cells(
        &mut self,
        styles: &mut Styles,
        block: &Block,
        f: usize,
    ) -> Result<(), OutOfMemory>
        requires whole { IsGrid self.old }
        requires area { is_area block.now ≡ true }
        requires unmet { meets_merge self.old.merged_cells block.now ≡ false }
        requires some { 0 < length styles.old }
        requires styled { IsStyled styles.old self.old }
        ensures ok { OnOk result (self.new ≡ (with_array self.old block.now f styles.old).0) }
        ensures styles { OnOk result (styles.new
            ≡ (with_array self.old block.now f styles.old).1) }
        ensures more { StartWith styles.new styles.old }
        ensures err { OnErr result (self.new ≡ self.old) }
        ensures whole { OnOk result (IsGrid self.new) }
        ensures styled { OnOk result (IsStyled styles.new self.new) }
    {
        let items = self.blank_cells(styles, block, f)?;
        put_array(&mut self.cells, block, items)?;
        Ok(())
    }

    /// The same. Where memory runs out, the styles that were added are taken back.
    fn enter_array(
        &mut self,
        styles: &mut Styles,
        block: &Block,
        f: usize,
    ) -> Result<(), OutOfMemory>
        requires whole { IsGrid self.old }
        requires area { is_area block.now ≡ true }
        requires unmet { meets_merge self.old.merged_cells block.now ≡ false }
        requires styled { IsStyled styles.old self.old }
        ensures ok { OnOk result (self.new ≡ (with_array self.old block.now f styles.old).0) }
        ensures styles { OnOk result (styles.new
            ≡ (with_array self.old block.now f styles.old).1) }
        ensures kept { OnErr result (self.new ≡ self.old) }
        ensures kept_styles { OnErr result (styles.new ≡ styles.old) }
        ensures whole { IsGrid self.new }
        ensures styled { IsStyled styles.new self.new }
    {
        let count = styles.len();
        match self.enter_cells(styles, block, f) {
            Ok(()) => Ok(()),
            Err(lack) => {
                styles.truncate(count);
                Err(lack)
            }
        }
    }

    /// Writes a Cse array with the formula of an index into a block of the sheet, from a place on. Each array that has a cell
    /// in the block is released. The first place holds the formula, which has no value, and each other one a cell of its
    /// spill, which has the empty text. Each has the style of its place, that is its cell's, else its row's, else its
    /// column's, else 0, but without the quote flag; where no style is so, one is put at the end of the styles, by rows.
    /// `MergedPart` comes exactly where the block meets merged cells, and then `ArrayPart` exactly where one of its places
    /// belongs to a Cse array of more than one cell. Memory can be missing. After an error the sheet and the styles are as
    /// before. The sheet names styles that are there (`is_styled`), and does so after it too.
    pub fn write_array(
        &mut self,
        styles: &mut Styles,
        row: i32,
        column: i32,
        width: i32,
        height: i32,
        f: usize,
    ) -> Result<(), GridError>
        requires whole { IsGrid self.old }
        requires area { is_area (block_at (row, column) width height) ≡ true }
        requires styled { IsStyled styles.old self.old }
        ensures allowed { OnOk result (can_write_array celled self.old.merged_cells self.old.cells
            (block_at (row, column) width height) ≡ Ok tt) }
        ensures ok { OnOk result (self.new
            ≡ (with_array self.old (block_at (row, column) width height) f styles.old).0) }
        ensures styles { OnOk result (styles.new
            ≡ (with_array self.old (block_at (row, column) width height) f styles.old).1) }
        ensures err { IfErr result (IsRefusal (can_write_array celled self.old.merged_cells
            self.old.cells (block_at (row, column) width height))) }
        ensures kept { OnErr result (self.new ≡ self.old) }
        ensures kept_styles { OnErr result (styles.new ≡ styles.old) }
        ensures whole { IsGrid self.new }
        ensures styled { IsStyled styles.new self.new }
    {
        self.can_write_array(row, column, width, height)?;
        let block = Block::at((row, column), width, height);
        self.enter_array(styles, &block, f)?;
        Ok(())
    }
}
