//! The texts of errors that no book has.
use ic_laws::OutOfMemory;
use ic_lines::{Failed, RunError};
use ic_rows::Row;

/// Answers the call, if it is one of these.
pub fn call(row: &mut Row<'_>) {
    match row.name {
        "OutOfMemory" => row.put_made(OutOfMemory.to_string(row.alloc)),
        "failed" => row.put_made(Failed.to_string(row.alloc)),
        "run_error" => put_run_error(row),
        _ => {}
    }
}

/// The text of an error of a run, which is its name.
fn put_run_error(row: &mut Row<'_>) {
    let error = match row.word(1) {
        "ReadFault" => RunError::ReadFault,
        "WriteFault" => RunError::WriteFault,
        "TooManyTurns" => RunError::TooManyTurns,
        _ => RunError::OutOfMemory,
    };
    row.put_made(error.to_string(row.alloc));
}
