ghost use Rattle.std.specs.Prelude.{◌≡◌, ◌↔◌, ◌++◌, List, ℕ, ℤ, Option, Some, None, Result, codes, false, is_ok, is_some, option_map, pos, true, if◌then◌else◌};
ghost use Rattle.ic_laws.specs.Binding.{IsSettled, bound, spelled};
ghost use Rattle.ic_laws.specs.Clash.{clashes_with};
ghost use Rattle.ic_laws.specs.CoreBook.{CoreBook, scene_of};
ghost use Rattle.ic_laws.specs.FormulaReading.{reference_tree, shown_at};
ghost use Rattle.ic_laws.specs.NextToken.{tokens_of};
ghost use Rattle.ic_laws.specs.Notations.{AreNotations, Notations, english, english_function, is_cell};
ghost use Rattle.ic_laws.specs.ReadAs.{read_as};
ghost use Rattle.ic_laws.specs.Reading.{printed};
ghost use Rattle.ic_laws.specs.Scene.{SheetsDiffer, found_sheet};
ghost use Rattle.ic_laws.specs.Tree.{Bound, Spelled};
ghost use Rattle.ic_laws.specs.ValidCore.{IsKept, IsPooled, IsValidCore};
ghost use Rattle.ic_laws.specs.declared.scene.Scene.{Scene};
ghost use Rattle.ic_laws.specs.declared.tree.Formula.TheVariants as formulas;
ghost use Rattle.ic_laws.specs.declared.tree.Formula.{Formula};
ghost use Rattle.ic_refs.specs.Formula.{ParsesFormula, formula_token};
ghost use Rattle.ic_refs.specs.declared.error.ReferenceError.{ReferenceError};
ghost use Rattle.ic_refs.specs.declared.reference.ParsedReference.{ParsedReference};
ghost use Rattle.ic_tables.specs.Tables.{IsWellFormed, TableSet, language_of};
ghost use Rattle.ic_tables.specs.declared.language.Language.{Language};
ghost use Rattle.ic_tree.specs.LanguageWords.{function_of, is_boolean_word, is_function_word};
ghost use Rattle.ic_tree.specs.Lexing.{ends_whole, tokens_before};
ghost use Rattle.ic_tree.specs.Notations.{in_english, notations_of};
ghost use Rattle.ic_tree.specs.StoredText.{stored_formula};

use ic_laws::Dialect;

/// The tokens of a text are those before the first place where none begins, where that is the text's end.
pub fn law_tokens_before<D: Dialect>()
    ensures { (d : D) (text : List ℕ) → tokens_of (D.meaning d) text
        ≡ (if ends_whole (D.meaning d) text then Some (tokens_before (D.meaning d) text)
        else None) }
{}

/// What `bind` gives is settled, whatever the language, where no two sheets have names that agree: written out with its
/// names and bound again with the same ones, it is the same formula.
pub fn law_language_settled()
    ensures { (l : Language) (scene : Scene) (scope : Option ℕ) → SheetsDiffer scene → (t : Spelled)
        → IsSettled (function_of l) scene scope (bound (function_of l) scene scope t) }
{}

/// What is shown of a kept formula in a cell of a valid book reads there as the formula's spelling, unless the formula
/// clashes with the language of the book as `clashes` tells it, by the words of that language alone.
pub fn law_shown_reads()
    ensures { (tables : TableSet) → IsWellFormed tables → (book : CoreBook)
        → IsValidCore (notations_of tables) book
        → (language : Language) → language_of tables book.language ≡ Some language
        → (scope : Option ℕ) (row column : ℤ) → is_cell row column ≡ true → (t : Bound)
        → IsKept (notations_of tables) (scene_of book) scope row column t
        → clashes_with (is_boolean_word language) (is_function_word language) t ≡ false
        → read_as (shown_at (notations_of tables) book row column)
        (printed (shown_at (notations_of tables) book row column) (spelled (scene_of book) t))
        ≡ Some (spelled (scene_of book) t) }
{}

/// A formula that a valid book keeps never clashes with English. So what is written of it in English, in the A1 form for a
/// cell, reads there and binds to it, whatever the notation in force: that of the body of a definition for the cell at row 1
/// and column 1, from which bodies count.
pub fn law_english_reads()
    ensures free { (tables : TableSet) → IsWellFormed tables → (book : CoreBook)
        → IsValidCore (notations_of tables) book
        → (language : Language) → language_of tables english ≡ Some language
        → (scope : Option ℕ) (row column : ℤ) (t : Bound)
        → IsKept (notations_of tables) (scene_of book) scope row column t
        → clashes_with (is_boolean_word language) (is_function_word language) t ≡ false }
    ensures binds { (tables : TableSet) → IsWellFormed tables → (book : CoreBook)
        → IsValidCore (notations_of tables) book
        → (scope : Option ℕ) (row column : ℤ) → is_cell row column ≡ true → (t : Bound)
        → IsKept (notations_of tables) (scene_of book) scope row column t
        → option_map (bound (english_function (notations_of tables)) (scene_of book) scope)
        (read_as (in_english tables row column)
        (printed (in_english tables row column) (spelled (scene_of book) t))) ≡ Some t }
{}

/// The stored text of a formula, a tree's spelling in the stored form or a raw text after `)`, tells the formula: of two that
/// a valid book keeps for one sheet, the stored texts are equal exactly where the formulas are. That of a tree doesn't begin
/// with `)`.
pub fn law_stored_formula()
    ensures decides { (n : Notations) (book : CoreBook) (scope : Option ℕ) (f g : Formula)
        → AreNotations n → IsValidCore n book
        → IsPooled n (scene_of book) scope f → IsPooled n (scene_of book) scope g
        → stored_formula n (scene_of book) f ≡ stored_formula n (scene_of book) g ↔ f ≡ g }
    ensures begins { (n : Notations) (book : CoreBook) (scope : Option ℕ) (t : Bound)
        (rest : List ℕ) → AreNotations n → IsValidCore n book
        → IsPooled n (scene_of book) scope (formulas.Tree t)
        → stored_formula n (scene_of book) (formulas.Tree t) ≡ codes ")" ++ rest → ⊥ }
{}

/// What the body of a definition takes for a reference is what `parse_reference_formula` of the crate of references accepts
/// where it finds the sheets of the book and knows no sheet beside: a text is taken exactly where that call answers Ok.
pub fn law_body_reference()
    ensures { (tables : TableSet) → IsWellFormed tables → (book : CoreBook)
        → IsValidCore (notations_of tables) book
        → (text : List ℕ) (answer : Result ParsedReference ReferenceError)
        → ParsesFormula (λ name id. id ≡ found_sheet (scene_of book) name) None
        (formula_token text) answer
        → is_some (reference_tree (shown_at (notations_of tables) book (pos 1) (pos 1))
        (scene_of book) text) ≡ is_ok answer }
{}
