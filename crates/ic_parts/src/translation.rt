//! What commands write by texts of their own, and how that is written in a notation which isn't in force.
ghost use Rattle.std.specs.Prelude.{◌≡◌, ◌∷◌, [], IfOk, IsSome, None, chars, if◌then◌else◌};
ghost use Rattle.ic_laws.specs.Character.{equals};
ghost use Rattle.ic_tables.specs.Tables.{IsWellFormed};
ghost use Rattle.ic_tree.specs.Notations.{notations_of};
ghost use Rattle.ic_parts.specs.Refused.{refusal_of};

use crate::{BookError, Notation, OwnText};
use ic_laws::{Dialect, OutOfMemory};
use ic_tree::Shown;

/// How formulas are written in a notation, in the cell at a row and a column.
pub fn dialect_in<'n>(target: &Notation<'n>, row: i32, column: i32) -> Shown<'n>
    requires { IsWellFormed target.now.tables }
    ensures { ⟦<Shown<'n> as Dialect>⟧.meaning result ≡ (notations_of target.now.tables).shown
        target.now.locale target.now.language row column }
{
    let locale = &target.locale().locale;
    Shown::new(target.tables(), locale, target.language(), row, column)
}

/// The sign that stands before a body.
pub fn sign_of(has_equals: bool) -> &'static str
    ensures { chars result.now ≡ (if has_equals then equals ∷ [] else []) }
{
    if has_equals { "=" } else { "" }
}

/// Nothing for a call that was refused; that memory ran out where it did.
pub fn none_unless_memory(e: &BookError) -> Result<Option<OwnText>, OutOfMemory>
    ensures { IfOk result (λ own. (own ≡ None) × IsSome (refusal_of e.now)) }
{
    match e {
        BookError::OutOfMemory => Err(OutOfMemory),
        _ => Ok(None),
    }
}
