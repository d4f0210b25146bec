use crate::{Styles, Worksheet};
use ic_laws::{Items, Text};

/// A name that stands for a formula.
pub struct DefinedName {
    pub name: Text,
    /// Its formula as it is stored.
    pub formula: Text,
    /// The id of the sheet that it is local to. None where it is seen from all.
    pub sheet_id: Option<u32>,
}

impl Drop for DefinedName {
    fn drop(self) {
        let Self {
            name,
            formula,
            sheet_id: _,
        } = self;
        drop(name);
        drop(formula);
    }
}

/// By what a workbook is read and shown.
pub struct WorkbookSettings {
    /// The name of its time zone, such as `Europe/Berlin`.
    pub tz: Text,
    /// The id of its locale, such as `de`.
    pub locale: Text,
}

impl Drop for WorkbookSettings {
    fn drop(self) {
        let Self { tz, locale } = self;
        drop(tz);
        drop(locale);
    }
}

/// Who made a workbook, with what, and when.
pub struct Metadata {
    pub application: Text,
    pub app_version: Text,
    pub creator: Text,
    pub last_modified_by: Text,
    /// A moment, such as `1970-01-01T00:00:00Z`.
    pub created: Text,
    /// A moment, such as `1970-01-01T00:00:00Z`.
    pub last_modified: Text,
}

impl Drop for Metadata {
    fn drop(self) {
        let Self {
            application,
            app_version,
            creator,
            last_modified_by,
            created,
            last_modified,
        } = self;
        drop(application);
        drop(app_version);
        drop(creator);
        drop(last_modified_by);
        drop(created);
        drop(last_modified);
    }
}

/// The theme of a workbook.
#[derive(Drop)]
pub struct Theme {
    pub name: Text,
}

/// The formats of a locale, each with an example: 15 December 2025, and the amount 1234.567.
pub struct FmtSettings {
    /// The code of its currency, such as `USD`.
    pub currency: Text,
    /// The format of currencies, such as `"$"#,##0.00`.
    pub currency_format: Text,
    pub short_date: Text,
    pub short_date_example: Text,
    pub long_date: Text,
    pub long_date_example: Text,
    pub number_fmt: Text,
    pub number_example: Text,
}

impl Drop for FmtSettings {
    fn drop(self) {
        let Self {
            currency,
            currency_format,
            short_date,
            short_date_example,
            long_date,
            long_date_example,
            number_fmt,
            number_example,
        } = self;
        drop(currency);
        drop(currency_format);
        drop(short_date);
        drop(short_date_example);
        drop(long_date);
        drop(long_date_example);
        drop(number_fmt);
        drop(number_example);
    }
}

/// A workbook as plain data.
pub struct Workbook {
    pub name: Text,
    /// The texts of its cells, by number from 0.
    pub shared_strings: Items<Text>,
    pub defined_names: Items<DefinedName>,
    pub worksheets: Items<Worksheet>,
    pub styles: Styles,
    pub settings: WorkbookSettings,
    pub metadata: Metadata,
    pub theme: Theme,
}

impl Drop for Workbook {
    fn drop(self) {
        let Self {
            name,
            shared_strings,
            defined_names,
            worksheets,
            styles,
            settings,
            metadata,
            theme,
        } = self;
        drop(name);
        drop(shared_strings);
        drop(defined_names);
        drop(worksheets);
        drop(styles);
        drop(settings);
        drop(metadata);
        drop(theme);
    }
}
