//! The records of bytes, one after another.
ghost use Rattle.std.specs.Prelude.{◌≡◌, ◌+◌, ◌≤◌, IfOk, length};
ghost use Rattle.csv.specs.Records.{fields_of};
ghost use Rattle.ic_import.specs.Records.{TakesRecord, records_of};

use csv::{ByteRecord, Reader, ReaderBuilder};
use ic_laws::OutOfMemory;
use std::alloc::Global;
use std::marker::Model;

/// The records of borrowed bytes that weren't taken yet.
pub struct Records<'b> {
    reader: Reader<&'b [u8]>,
}

impl Drop for Records<'_> {
    fn drop(self) {
        let Self { reader } = self;
        drop(reader);
    }
}

impl<'b> Model for Records<'b> {
    ghost use Rattle.std.specs.Prelude.{ℕ, List, Some};
    ghost use Rattle.ic_import.specs.Reader.{IsReadable, left_of};

    ghost Value = { List (List (List ℕ)) };

    ghost view = { λ s. left_of (λ bytes. Some bytes.now) s.reader };

    ghost invariant = { λ s. IsReadable (λ bytes. Some bytes.now) s.reader };
}

impl<'b> Records<'b> {
    /// All records of bytes whose fields are parted by this byte.
    pub fn new(alloc: Global, bytes: &'b [u8], separator: u8) -> Records<'b>
        ensures all { result ≡ records_of separator bytes.now }
        ensures few { length result ≤ length bytes.now + 1 }
    {
        let reader = ReaderBuilder::new()
            .delimiter(separator)
            .has_headers(false)
            .flexible(true)
            .from_reader(alloc, bytes);
        Records { reader }
    }

    /// Takes the next record into `fields`, and answers whether there was one. Only memory can be missing.
    pub fn take(&mut self, fields: &mut ByteRecord) -> Result<bool, OutOfMemory>
        ensures { IfOk result (λ found.
            TakesRecord found self.old self.new (fields_of fields.new)) }
    {
        let Ok(found) = self.reader.read_byte_record(fields) else {
            return Err(OutOfMemory);
        };
        Ok(found)
    }
}
