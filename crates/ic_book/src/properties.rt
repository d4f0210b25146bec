//! What is told of the sheets in a list of them.
ghost use Rattle.ic_machine.specs.subjects.Sheets.{GetWorksheetsProperties, sheet_step};
ghost use Rattle.ic_parts.specs.Does.{Does};
ghost use Rattle.ic_parts.specs.Fields.{sheets_fields};

use crate::{BookError, Model};
use ic_cells::SheetProperties;
use ic_parts::properties::properties_of;

impl<'a> Model<'a> {
    /// The name, the state (`visible`, `hidden` or `veryHidden`), the color and the id of each sheet, in their order. Only
    /// memory can be missing.
    pub fn get_worksheets_properties(&self) -> Result<Vec<SheetProperties>, BookError>
        ensures does { Does sheet_step GetWorksheetsProperties sheets_fields
            result self.now self.now }
    {
        Ok(properties_of(self.alloc, self.contents.sheets.as_slice())?)
    }
}
