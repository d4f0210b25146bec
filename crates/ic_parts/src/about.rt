ghost use Rattle.std.specs.Prelude.{◌≡◌, IfOk};
ghost use Rattle.ic_parts.specs.Book.{metadata_made};

use crate::copies::copy_text;
use ic_cells::Metadata;
use ic_laws::{OutOfMemory, Text};
use std::alloc::Global;

/// The application that a new workbook is made with.
pub const APPLICATION: &str = "IronCalc Sheets";

/// The version of that application.
pub const APP_VERSION: &str = "10.0000";

/// Who makes a new workbook, and changes it last.
pub const IRONCALC_USER: &str = "IronCalc User";

/// What a workbook has beside its contents, its lists and its notation.
pub struct About<'a> {
    /// What it is called.
    pub name: Text,
    /// The name of its time zone, such as `Europe/Berlin`, as the tables have it.
    pub zone: &'a Text,
    /// The name of its theme.
    pub theme: Text,
    /// Who made it, with what, and when.
    pub metadata: Metadata,
}

impl Drop for About<'_> {
    fn drop(self) {
        let Self {
            name,
            zone: _,
            theme,
            metadata,
        } = self;
        drop(name);
        drop(theme);
        drop(metadata);
    }
}

/// Who made a new workbook, with what, and when: at the moment of this text.
pub fn metadata_made(alloc: Global, created: Text) -> Result<Metadata, OutOfMemory>
    ensures { IfOk result (λ metadata. metadata ≡ metadata_made created) }
{
    let application = Text::from_str(alloc, APPLICATION)?;
    let app_version = Text::from_str(alloc, APP_VERSION)?;
    let creator = Text::from_str(alloc, IRONCALC_USER)?;
    let last_modified_by = Text::from_str(alloc, IRONCALC_USER)?;
    let last_modified = copy_text(alloc, &created)?;
    Ok(Metadata {
        application,
        app_version,
        creator,
        last_modified_by,
        created,
        last_modified,
    })
}
