ghost use Rattle.std.specs.Prelude.{◌≡◌, ℕ, List, Option, Some, None, chars, option_map, option_and_then, IfOk};
ghost use Rattle.ic_laws.specs.declared.reference.Place.{Place};
ghost use Rattle.ic_refs.specs.Longest.{read_at};
ghost use Rattle.ic_laws.specs.SheetText.{sheet_at};
ghost use Rattle.ic_refs.specs.Sheet.{reference_at, with_sheet};
ghost use Rattle.ic_refs.specs.Token.{token_of};

use crate::offset::{bytes_before, text_from};
use crate::sheet::find_sheet;
use crate::written::{WrittenName, owned_name};
use ic_laws::{OutOfMemory, Place, RefToken};
use std::alloc::Global;

/// A form of references, by what reads a place at the front of a text.
pub(crate) trait PlaceForm {
    ghost place_at: { Self → List ℕ → Option (Place × List ℕ) };

    ghost is_usable: { Self → Type 0 };

    /// The longest place at the front, and the rest.
    fn read_place<'t>(&self, text: &'t str) -> Option<(Place, &'t str)>
        requires { is_usable self.now }
        ensures { option_map (λ f. (f.0, chars f.1.now)) result
            ≡ place_at self.now (chars text.now) };
}

/// A reference as it is written, and the rest.
#[derive(Clone, Copy)]
pub(crate) struct FoundReference<'t> {
    pub(crate) sheet: Option<WrittenName<'t>>,
    pub(crate) place: Place,
    pub(crate) rest: &'t str,
}

// The reference with a sheet's name at the front.
fn find_named<'t, P: PlaceForm>(form: &P, text: &'t str) -> Option<FoundReference<'t>>
    requires { P.is_usable form.now }
    ensures { option_map (λ f. (token_of f, chars f.rest.now)) result
        ≡ option_and_then (λ f. with_sheet (Some f.0) (P.place_at form.now f.1))
        (sheet_at (chars text.now)) }
{
    let (name, rest) = find_sheet(text)?;
    let (place, rest) = form.read_place(rest)?;
    Some(FoundReference {
        sheet: Some(name),
        place,
        rest,
    })
}

/// The longest reference at the front, with a sheet's name or without.
pub(crate) fn find_reference<'t, P: PlaceForm>(
    form: &P,
    text: &'t str,
) -> Option<FoundReference<'t>>
    requires { P.is_usable form.now }
    ensures { option_map (λ f. (token_of f, chars f.rest.now)) result
        ≡ reference_at (P.place_at form.now) (chars text.now) }
{
    if let Some(found) = find_named(form, text) {
        return Some(found);
    }
    let (place, rest) = form.read_place(text)?;
    Some(FoundReference {
        sheet: None,
        place,
        rest,
    })
}

// The reference, owned.
fn owned_token(alloc: Global, found: &FoundReference<'_>) -> Result<RefToken, OutOfMemory>
    ensures { IfOk result (λ token. token ≡ token_of found.now) }
{
    let sheet = owned_name(alloc, found.sheet)?;
    Ok(RefToken {
        sheet,
        place: found.place,
    })
}

/// The longest reference that begins at a byte, and its length in bytes.
pub(crate) fn read_reference<P: PlaceForm>(
    alloc: Global,
    form: &P,
    text: &str,
    at: usize,
) -> Result<Option<(RefToken, usize)>, OutOfMemory>
    requires { P.is_usable form.now }
    ensures { IfOk result (λ found. found ≡ read_at (reference_at (P.place_at form.now)) text.now
        at) }
{
    let Some(rest) = text_from(text, at) else {
        return Ok(None);
    };
    let Some(found) = find_reference(form, rest) else {
        return Ok(None);
    };
    let token = owned_token(alloc, &found)?;
    Ok(Some((token, bytes_before(rest, found.rest))))
}
