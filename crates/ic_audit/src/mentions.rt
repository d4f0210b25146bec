//! Who mentions a sheet or a definition of a book.
ghost use Rattle.std.specs.Prelude.{◌≡◌, IfOk, chars, is_none, map};
ghost use Rattle.ic_machine.specs.Sites.{name_sites_refusal, sheet_sites_refusal, sites_of_name_in, sites_of_sheet_at};
ghost use Rattle.ic_parts.specs.Book.{core_of};
ghost use Rattle.ic_parts.specs.Refused.{refusal_of};
ghost use Rattle.ic_parts.specs.Sites.{site_of};
ghost use Rattle.ic_parts.specs.Whole.{whole_of};
ghost use Rattle.ic_audit.specs.Refused.{Tells};

use crate::AuditError;
use ic_book::{BookError, MentionSite, Model};
use std::alloc::Global;

/// The cells and the definitions that mention the sheet at an index, from 0, in a reference or before a word: cells by the
/// order of sheets, rows and columns, then definitions in the order of the book, also those that are local to a sheet which is
/// gone. Each comes once.
///
/// `NoSuchSheet` exactly where no sheet stands at the index; `OutOfMemory` only where one does.
pub fn mentions_of_sheet(
    alloc: Global,
    model: &Model<'_>,
    sheet: u32,
) -> Result<Vec<MentionSite>, AuditError>
    ensures sites { IfOk result (λ sites. map site_of sites.items
        ≡ sites_of_sheet_at sheet (whole_of model.now.book)) }
    ensures refused { Tells AuditError.NoSuchSheet result
        (sheet_sites_refusal (core_of model.now.book) sheet) }
{
    match model.sites_of_sheet(sheet) {
        Ok(sites) => Ok(sites),
        Err(e) => {
            if ran_out(&e) {
                Err(AuditError::OutOfMemory)
            } else {
                Err(AuditError::NoSuchSheet)
            }
        }
    }
}

/// The sites that mention the definition of an agreeing name that is local to the sheet at an index, from 0, or to none, by words
/// that mean it, in the same order. One for all sheets isn't found by an index.
///
/// `NoSuchName` exactly where no sheet stands at the index, or there is no such definition; `OutOfMemory` only where neither
/// holds.
pub fn mentions_of_name(
    alloc: Global,
    model: &Model<'_>,
    name: &str,
    scope: Option<u32>,
) -> Result<Vec<MentionSite>, AuditError>
    ensures sites { IfOk result (λ sites. map site_of sites.items
        ≡ sites_of_name_in (chars name.now) scope (whole_of model.now.book)) }
    ensures refused { Tells AuditError.NoSuchName result
        (name_sites_refusal (core_of model.now.book) (chars name.now) scope) }
{
    match model.sites_of_name(name, scope) {
        Ok(sites) => Ok(sites),
        Err(e) => {
            if ran_out(&e) {
                Err(AuditError::OutOfMemory)
            } else {
                Err(AuditError::NoSuchName)
            }
        }
    }
}

/// Whether an error tells that memory ran out, and no refusal.
fn ran_out(e: &BookError) -> bool
    ensures { result ≡ is_none (refusal_of e.now) }
{
    match e {
        BookError::OutOfMemory => true,
        _ => false,
    }
}
