ghost use Rattle.std.specs.Prelude.{◌≡◌, chars, drop, option_map, IfOk};
ghost use Rattle.std.specs.Str.{IsCharBoundary};

use ic_laws::{Dialect, OutOfMemory, RefToken};
use std::alloc::Global;

/// The longest reference at the front of a text, and the rest.
// Inlined, since its result is large: a call would copy it, and set it to zero before.
#[inline(always)]
pub(crate) fn reference_at<'t, D: Dialect>(
    alloc: Global,
    d: &D,
    text: &'t str,
) -> Result<Option<(RefToken, &'t str)>, OutOfMemory>
    ensures { IfOk result (λ r. option_map (λ f. (f.0, chars f.1.now)) r
        ≡ (D.meaning d.now).read_ref (chars text.now)) }
{
    match d.read_ref(alloc, text, 0) {
        Err(e) => Err(e),
        Ok(None) => Ok(None),
        Ok(Some((reference, size))) => Ok(Some((reference, past_bytes(text, size)))),
    }
}

/// What stands after so many bytes.
pub(crate) fn past_bytes(text: &str, size: usize) -> &str
    requires { IsCharBoundary text.now size }
    ensures { result.now ≡ drop size text.now }
{
    let (_, rest) = text.split_at(size);
    rest
}
