//! Wrong fields: those that are no text, and those whose place is in no sheet.
ghost use Rattle.std.specs.Prelude.{◌≡◌, ◌≤◌, ◌<◌, ◌+◌, IfOk, option_map, true};
ghost use Rattle.csv.specs.Records.{fields_of};
ghost use Rattle.ic_laws.specs.Position.{is_column, is_row};
ghost use Rattle.ic_import.specs.Placed.{Finds, first_outside, is_in_sheet, number_of, place_at, survey_of};
ghost use Rattle.ic_import.specs.Records.{all_fields, fields_in, first_no_text, records_of};

use crate::records::Records;
use csv::ByteRecord;
use ic_laws::{LAST_COLUMN, LAST_ROW, OutOfMemory};
use std::alloc::Global;
use std::str;

/// A record by its number, and a field by its number in that, both from 1.
#[derive(Clone, Copy)]
pub struct FieldNumber {
    pub at_record: u64,
    pub at_field: u64,
}

/// What is found in all fields.
#[derive(Clone, Copy)]
pub enum Survey {
    /// Each is UTF-8, and has a place in the sheet.
    Typable,
    /// The first field that isn't UTF-8.
    NotUtf8(FieldNumber),
    /// The first field whose place leaves the sheet. All are UTF-8.
    OutsideSheet(FieldNumber),
}

/// The row and the column, both from 1, of the first field of the first record.
#[derive(Clone, Copy)]
pub struct Start {
    pub row: i32,
    pub column: i32,
}

/// Looks at all fields of bytes, with this byte between them, where the first one is to stand at a place of the sheet. Only
/// memory can be missing.
pub fn survey_fields(
    alloc: Global,
    bytes: &[u8],
    separator: u8,
    start: Start,
) -> Result<Survey, OutOfMemory>
    requires row { is_row start.row ≡ true }
    requires column { is_column start.column ≡ true }
    ensures { IfOk result (Finds (start.row, start.column)
        (all_fields (records_of separator bytes.now))) }
{
    let mut records = Records::new(alloc, bytes, separator);
    let mut fields = ByteRecord::new(alloc);
    let mut outside: Option<FieldNumber> = None;
    let mut at_record = 0;
    'records: while records.take(&mut fields)? {
        at_record += 1;
        if let Some(number) = no_text_in(at_record, &fields) {
            return Ok(Survey::NotUtf8(number));
        }
        outside = outside.or(outside_in(start, at_record, &fields));
    }
    Ok(surveyed(outside))
}

/// What is found where each field is UTF-8.
fn surveyed(outside: Option<FieldNumber>) -> Survey
    ensures { result ≡ survey_of outside }
{
    match outside {
        Some(number) => Survey::OutsideSheet(number),
        None => Survey::Typable,
    }
}

/// The first field of a record that isn't UTF-8.
fn no_text_in(at_record: u64, fields: &ByteRecord) -> Option<FieldNumber>
    ensures { result ≡ option_map number_of
        (first_no_text (fields_in at_record 1 (fields_of fields.now))) }
{
    let mut at = 0;
    'fields: while let Some(field) = fields.get(at) {
        at += 1;
        let Ok(_) = str::from_utf8(field) else {
            return Some(FieldNumber {
                at_record,
                at_field: at as u64,
            });
        };
    }
    None
}

/// The first field of a record whose place leaves the sheet.
fn outside_in(start: Start, at_record: u64, fields: &ByteRecord) -> Option<FieldNumber>
    requires record { 1 ≤ at_record }
    requires row { is_row start.row ≡ true }
    requires column { is_column start.column ≡ true }
    ensures { result ≡ option_map number_of
        (first_outside (start.row, start.column) (fields_in at_record 1 (fields_of fields.now))) }
{
    let count = fields.len();
    let mut at = 0;
    'fields: while at < count {
        at += 1;
        let number = FieldNumber {
            at_record,
            at_field: at as u64,
        };
        if !is_inside(start, number) {
            return Some(number);
        }
    }
    None
}

/// Whether the place of a field is one of the sheet.
pub fn is_inside(start: Start, number: FieldNumber) -> bool
    requires record { 1 ≤ number.at_record }
    requires field { 1 ≤ number.at_field }
    requires row { is_row start.row ≡ true }
    requires column { is_column start.column ≡ true }
    ensures { result ≡ is_in_sheet
        (place_at (start.row, start.column) number.at_record number.at_field) }
{
    let rows = LAST_ROW as u64 + 1 - start.row as u64;
    let columns = LAST_COLUMN as u64 + 1 - start.column as u64;
    number.at_record <= rows && number.at_field <= columns
}
