//! Fields typed into a book, one after another.
ghost use Rattle.std.specs.Prelude.{◌≡◌, ◌≤◌, ◌^◌, [], ◌∷◌, IfErr, IfOk, IsUtf8, Ok, OnOk, length, true};
ghost use Rattle.csv.specs.Records.{fields_of};
ghost use Rattle.ic_laws.specs.Position.{is_column, is_row};
ghost use Rattle.ic_parts.specs.Whole.{whole_of};
ghost use Rattle.ic_import.specs.Placed.{is_in_sheet, place_at};
ghost use Rattle.ic_import.specs.Records.{all_fields, fields_in, records_of};
ghost use Rattle.ic_import.specs.Typed.{TellsBlocked, Typable, error_of, type_field, typed};

use crate::ImportError;
use crate::places::FieldNumber;
use crate::records::Records;
use csv::ByteRecord;
use ic_book::{BookError, Model};
use ic_refs::CellReferenceIndex;
use std::alloc::Global;
use std::str;

/// Types all fields of bytes, with this byte between them, into a sheet of a book, in the notation in force. The first one goes
/// to this place, each record a row below the one before, each field a column to the right. Answers how many records and how
/// many fields there are.
///
/// `Blocked` exactly where the book refuses a field in its turn, with the first one; `OutOfMemory`.
pub fn type_all(
    alloc: Global,
    model: &mut Model<'_>,
    at: &CellReferenceIndex,
    bytes: &[u8],
    separator: u8,
) -> Result<(u64, u64), ImportError>
    requires row { is_row at.now.row ≡ true }
    requires column { is_column at.now.column ≡ true }
    requires typable { Typable (at.now.row, at.now.column)
        (all_fields (records_of separator bytes.now)) }
    ensures typed { OnOk result (typed at.now.sheet (at.now.row, at.now.column)
        (all_fields (records_of separator bytes.now)) (whole_of model.old.book)
        ≡ Ok (whole_of model.new.book)) }
    ensures counted { IfOk result (λ counts. counts ≡ (
      length (records_of separator bytes.now),
      length (all_fields (records_of separator bytes.now)),
    )) }
    ensures blocked { IfErr result (TellsBlocked (typed at.now.sheet (at.now.row, at.now.column)
        (all_fields (records_of separator bytes.now)) (whole_of model.old.book))) }
{
    let mut records = Records::new(alloc, bytes, separator);
    let mut fields = ByteRecord::new(alloc);
    let mut at_record = 0;
    let mut count = 0;
    'records: while records.take(&mut fields)? {
        at_record += 1;
        type_record(alloc, model, at, at_record, &fields)?;
        count += fields.len() as u64;
    }
    Ok((at_record, count))
}

/// Types the fields of the record of this number.
fn type_record(
    alloc: Global,
    model: &mut Model<'_>,
    at: &CellReferenceIndex,
    at_record: u64,
    fields: &ByteRecord,
) -> Result<(), ImportError>
    requires row { is_row at.now.row ≡ true }
    requires column { is_column at.now.column ≡ true }
    requires record { (1 ≤ at_record) × (at_record ≤ 2 ^ 63) }
    requires typable { Typable (at.now.row, at.now.column)
        (fields_in at_record 1 (fields_of fields.now)) }
    ensures typed { OnOk result (typed at.now.sheet (at.now.row, at.now.column)
        (fields_in at_record 1 (fields_of fields.now)) (whole_of model.old.book)
        ≡ Ok (whole_of model.new.book)) }
    ensures blocked { IfErr result (TellsBlocked (typed at.now.sheet (at.now.row, at.now.column)
        (fields_in at_record 1 (fields_of fields.now)) (whole_of model.old.book))) }
{
    let mut done = 0;
    'fields: while let Some(field) = fields.get(done) {
        done += 1;
        let number = FieldNumber {
            at_record,
            at_field: done as u64,
        };
        type_field(alloc, model, at, number, field)?;
    }
    Ok(())
}

/// Types a field, which is UTF-8 and has a place in the sheet.
fn type_field(
    alloc: Global,
    model: &mut Model<'_>,
    at: &CellReferenceIndex,
    number: FieldNumber,
    field: &[u8],
) -> Result<(), ImportError>
    requires row { is_row at.now.row ≡ true }
    requires column { is_column at.now.column ≡ true }
    requires record { (1 ≤ number.at_record) × (number.at_record ≤ 2 ^ 63) }
    requires field { (1 ≤ number.at_field) × (number.at_field ≤ 2 ^ 63) }
    requires text { IsUtf8 field.now }
    requires inside { is_in_sheet (place_at (at.now.row, at.now.column)
        number.at_record number.at_field) ≡ true }
    ensures typed { OnOk result (type_field at.now.sheet (at.now.row, at.now.column)
        (record { at_record = number.at_record; at_field = number.at_field; bytes = field.now })
        (whole_of model.old.book)
        ≡ Ok (whole_of model.new.book, [])) }
    ensures blocked { IfErr result (TellsBlocked (typed at.now.sheet (at.now.row, at.now.column)
        (record { at_record = number.at_record; at_field = number.at_field; bytes = field.now }
        ∷ []) (whole_of model.old.book))) }
{
    let Ok(text) = str::from_utf8(field) else {
        unreachable!()
    };
    let row = at.row + (number.at_record - 1) as i32;
    let column = at.column + (number.at_field - 1) as i32;
    let Ok(text) = String::from_str(alloc, text) else {
        return Err(ImportError::OutOfMemory);
    };
    match model.set_user_input(at.sheet, row, column, text) {
        Ok(()) => Ok(()),
        Err(e) => Err(blocked(number, e)),
    }
}

/// The error for a field that the book refused, or where memory ran out.
fn blocked(number: FieldNumber, why: BookError) -> ImportError
    ensures { result ≡ error_of number why }
{
    match why {
        BookError::OutOfMemory => ImportError::OutOfMemory,
        why => ImportError::Blocked {
            at_record: number.at_record,
            at_field: number.at_field,
            why,
        },
    }
}
