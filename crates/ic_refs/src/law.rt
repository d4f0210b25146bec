ghost use Rattle.std.specs.Prelude.{◌≡◌, ℕ, ℤ, ◌++◌, List, Some, true};
ghost use Rattle.ic_laws.specs.Scan.{IsEnd};
ghost use Rattle.ic_laws.specs.declared.reference.RefToken.{RefToken};
ghost use Rattle.ic_refs.specs.A1.{a1_at, a1_text, is_shown_spellable};
ghost use Rattle.ic_refs.specs.Sheet.{reference_at};
ghost use Rattle.ic_refs.specs.Stored.{is_stored_spellable, stored_place_at, stored_text};

/// What is spelled of a reference is read back before each end, in the A1 form in a cell and in the stored form, where the
/// name of the sheet is a valid one or there is none, and the reference lies within the limits of its form.
pub fn law_spelled_references()
    ensures a1 { (row column : ℤ) (r : RefToken) (text rest : List ℕ)
        → is_shown_spellable row column r ≡ true → a1_text row column r ≡ Some text → IsEnd rest
        → a1_at row column (text ++ rest) ≡ Some (r, rest) }
    ensures stored { (r : RefToken) (rest : List ℕ) → is_stored_spellable r ≡ true → IsEnd rest
        → reference_at stored_place_at (stored_text r ++ rest) ≡ Some (r, rest) }
{}
