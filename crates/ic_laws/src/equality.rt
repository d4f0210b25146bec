ghost use Rattle.std.specs.Prelude.{IsTrue, List, ℕ, ℤ, ◌≡◌, ◌↔◌};
ghost use Rattle.ic_laws.specs.declared.tree.Error.{Error};

use crate::{Amount, Error, Text};

/// Error values, amounts and texts are equal by `==` exactly where they are one value: one error, one number of units,
/// one list of characters.
pub fn law_equality()
    ensures errors { (e f : Error) → IsTrue (⟦<Error as PartialEq>⟧.eq e f) ↔ e ≡ f }
    ensures amounts { (a b : ℤ) → IsTrue (⟦<Amount as PartialEq>⟧.eq a b) ↔ a ≡ b }
    ensures texts { (s t : List ℕ) → IsTrue (⟦<Text as PartialEq>⟧.eq s t) ↔ s ≡ t }
{}
