//! One tab: the steps of the machine on it.
ghost use Rattle.std.specs.Prelude.{false, true};
ghost use Rattle.ic_machine.specs.Reply.{position_field};
ghost use Rattle.ic_machine.specs.subjects.Tabs.{color_step, freeze_columns_step, freeze_rows_step, frozen_columns_step, frozen_rows_step, grid_lines_step, state_step};
ghost use Rattle.ic_parts.specs.Does.{DoesTab};
ghost use Rattle.ic_parts.specs.Fields.{no_fields};
ghost use Rattle.ic_parts.specs.Parts.{StaysFrozen};

use crate::BookError;
use ic_cells::{Color, SheetState};
use ic_laws::{LAST_COLUMN, LAST_ROW};
use ic_sheets::Tab;
use std::alloc::Global;

#[tactic(auto, unfolding(ic_machine::specs::subjects::Tabs::freeze_rows_step))]
pub fn freeze_rows(tab: &mut Tab, count: i32) -> Result<(), BookError>
    ensures does { DoesTab false (freeze_rows_step count) no_fields result tab.old tab.new }
    ensures frozen { StaysFrozen tab.old tab.new }
{
    if count < 0 {
        return Err(BookError::FrozenNegative);
    }
    if count >= LAST_ROW {
        return Err(BookError::TooManyRows);
    }
    tab.frozen_rows = count;
    Ok(())
}

#[tactic(auto, unfolding(ic_machine::specs::subjects::Tabs::freeze_columns_step))]
pub fn freeze_columns(tab: &mut Tab, count: i32) -> Result<(), BookError>
    ensures does { DoesTab false (freeze_columns_step count) no_fields result tab.old tab.new }
    ensures frozen { StaysFrozen tab.old tab.new }
{
    if count < 0 {
        return Err(BookError::FrozenNegative);
    }
    if count >= LAST_COLUMN {
        return Err(BookError::TooManyColumns);
    }
    tab.frozen_columns = count;
    Ok(())
}

#[tactic(auto, unfolding(ic_machine::specs::subjects::Tabs::frozen_rows_step))]
pub fn frozen_rows(tab: &Tab) -> Result<i32, BookError>
    ensures { DoesTab false frozen_rows_step position_field result tab.now tab.now }
{
    Ok(tab.frozen_rows)
}

#[tactic(auto, unfolding(ic_machine::specs::subjects::Tabs::frozen_columns_step))]
pub fn frozen_columns(tab: &Tab) -> Result<i32, BookError>
    ensures { DoesTab false frozen_columns_step position_field result tab.now tab.now }
{
    Ok(tab.frozen_columns)
}

#[tactic(auto, unfolding(ic_machine::specs::subjects::Tabs::color_step))]
pub fn paint(tab: &mut Tab, alloc: Global, color: &Color) -> Result<(), BookError>
    ensures does { DoesTab true (color_step color.now) no_fields result tab.old tab.new }
    ensures frozen { StaysFrozen tab.old tab.new }
{
    tab.color = color.copy(alloc)?;
    Ok(())
}

#[tactic(auto, unfolding(ic_machine::specs::subjects::Tabs::state_step))]
pub fn put_state(tab: &mut Tab, state: SheetState) -> Result<(), BookError>
    ensures does { DoesTab false (state_step state) no_fields result tab.old tab.new }
    ensures frozen { StaysFrozen tab.old tab.new }
{
    tab.state = state;
    Ok(())
}

#[tactic(auto, unfolding(ic_machine::specs::subjects::Tabs::grid_lines_step))]
pub fn show_lines(tab: &mut Tab, shows: bool) -> Result<(), BookError>
    ensures does { DoesTab false (grid_lines_step shows) no_fields result tab.old tab.new }
    ensures frozen { StaysFrozen tab.old tab.new }
{
    tab.shows_grid_lines = shows;
    Ok(())
}
