ghost use Rattle.std.specs.Prelude.{◌≡◌};
ghost use Rattle.std.specs.Bool.{Decides};
ghost use Rattle.ic_refs.specs.declared.reference.A1Reference.{A1Reference};
ghost use Rattle.ic_refs.specs.declared.reference.CellReferenceIndex.{CellReferenceIndex};
ghost use Rattle.ic_refs.specs.declared.reference.ParsedReference.{ParsedReference};

use crate::{A1Reference, CellReferenceIndex, ParsedReference};

/// References of each of the three kinds are equal by `==` exactly where they are one reference.
pub fn law_equal_references()
    ensures cells { (a b : CellReferenceIndex)
        → Decides (⟦<CellReferenceIndex as PartialEq>⟧.eq a b) (a ≡ b) }
    ensures written { (a b : A1Reference) → Decides (⟦<A1Reference as PartialEq>⟧.eq a b) (a ≡ b) }
    ensures parsed { (a b : ParsedReference) → Decides (⟦<ParsedReference as PartialEq>⟧.eq a b)
        (a ≡ b) }
{}
