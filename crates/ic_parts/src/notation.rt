ghost use Rattle.std.specs.Prelude.{◌≡◌, IfOk, chars, string_bytes};

use ic_laws::{OutOfMemory, Text};
use std::alloc::Global;

/// A text as callers take it.
pub fn string_of(alloc: Global, text: &Text) -> Result<String, OutOfMemory>
    ensures { IfOk result (λ s. chars (string_bytes s) ≡ text.now) }
{
    Ok(String::from_str(alloc, text.as_str())?)
}
