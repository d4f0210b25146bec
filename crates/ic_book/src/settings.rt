//! The formats of the locale in force, with an example of each.
ghost use Rattle.ic_machine.specs.Fields.{fields_of_settings};
ghost use Rattle.ic_machine.specs.subjects.Notation.{GetFmtSettings, notation_step};
ghost use Rattle.ic_parts.specs.Does.{Does};

use crate::{BookError, Model};
use ic_cells::FmtSettings;
use ic_parts::settings::settings_of;

impl<'a> Model<'a> {
    /// The formats of the locale in force: the code of its currency; its standard format of currencies, with the
    /// currency's symbol in double quotes and plain spaces; its short and its long format of dates, each with 15 December
    /// 2025 as it shows it; and the format `#,##0.00` with 1234.567. Only memory can be missing.
    pub fn get_fmt_settings(&self) -> Result<FmtSettings, BookError>
        ensures does { Does notation_step GetFmtSettings fields_of_settings
            result self.now self.now }
    {
        Ok(settings_of(self.alloc, &self.notation.locale().locale)?)
    }
}
