use ic_definitions::Definitions;
use ic_sheets::Sheets;

/// What a workbook contains.
pub struct Contents {
    pub sheets: Sheets,
    pub definitions: Definitions,
}

impl Drop for Contents {
    fn drop(self) {
        let Self {
            sheets,
            definitions,
        } = self;
        drop(sheets);
        drop(definitions);
    }
}
