ghost use Rattle.std.specs.Prelude.{List, Ok, Option, Some, [], false, is_some, option_map, true, ℕ, ℤ, ◌+◌, ◌↔◌, ◌≡◌};
ghost use Rattle.ic_laws.specs.Binding.{IsSettled, bound, spelled};
ghost use Rattle.ic_laws.specs.Command.{Command, Field};
ghost use Rattle.ic_laws.specs.CoreBook.{CoreBook, Definition, Sheet, greatest_id, scene_of, spelling_of};
ghost use Rattle.ic_laws.specs.CoreStep.{add_sheet_step, core_step, delete_definition_step, delete_step, index_of_definition, language_step, locale_step, move_step, new_definition, new_definition_step, rename_step, scope_or_none, with_definition, with_sheet_name, without_definition, without_sheet};
ghost use Rattle.ic_laws.specs.Clash.{clashes_with};
ghost use Rattle.ic_laws.specs.FormulaReading.{Body, body_of, cell_formula, shown_at, shown_formula};
ghost use Rattle.ic_laws.specs.Notations.{AreNotations, Notations, english_function, is_cell};
ghost use Rattle.ic_laws.specs.ReadAs.{read_as};
ghost use Rattle.ic_laws.specs.Reading.{printed};
ghost use Rattle.ic_laws.specs.Tree.{Bound};
ghost use Rattle.ic_laws.specs.ValidCore.{IsKept, IsPooled, IsValidCore};
ghost use Rattle.std.specs.List.{slice_get};
ghost use Rattle.ic_laws.specs.BookTrees.{BookKeepsFound, EachTree, IsMoved, with_sheet_at_end, with_trees};
ghost use Rattle.ic_laws.specs.Changes.{Change, MentionsHold, NoneDanglesBy, changed_tree, changes_tree, definition_added, definition_gone, sheet_gone, sheet_named};
ghost use Rattle.ic_laws.specs.declared.dialect.WordKind.TheVariants as kinds;
ghost use Rattle.ic_laws.specs.declared.scene.Scene.{Scene};
ghost use Rattle.ic_laws.specs.declared.tree.Formula.TheVariants as formulas;

/// In a valid book the stored text of a tree that is kept for a sheet, its spelling in the stored form, is read and bound
/// as the tree, whether a cell has it or none, in every notation. So two trees that are kept for one sheet have equal stored
/// texts exactly where they are equal.
pub fn law_stored_text()
    ensures binds { (n : Notations) (book : CoreBook) (scope : Option ℕ) (t : Bound)
        → AreNotations n → IsValidCore n book → IsPooled n (scene_of book) scope (formulas.Tree t)
        → option_map (bound (english_function n) (scene_of book) scope)
        (read_as n.stored (printed n.stored (spelled (scene_of book) t))) ≡ Some t }
    ensures decides { (n : Notations) (book : CoreBook) (scope : Option ℕ) (t u : Bound)
        → AreNotations n → IsValidCore n book → IsPooled n (scene_of book) scope (formulas.Tree t)
        → IsPooled n (scene_of book) scope (formulas.Tree u)
        → printed n.stored (spelled (scene_of book) t)
        ≡ printed n.stored (spelled (scene_of book) u) ↔ t ≡ u }
    ensures of_cells { (n : Notations) (scene : Scene) (scope : Option ℕ) (row column : ℤ)
        (t : Bound) → IsKept n scene scope row column t → IsPooled n scene scope (formulas.Tree t) }
{}

/// A command that is accepted leaves a valid book valid, whichever it is.
pub fn law_steps_stay_valid()
    ensures { (n : Notations) (book after : CoreBook) (command : Command) (fields : List Field)
        → AreNotations n → IsValidCore n book → core_step n book command ≡ Ok (after, fields)
        → IsValidCore n after }
{}

/// What a valid book shows of a formula in a cell, typed into that cell again, is the same formula, in each locale and each
/// language, unless a word of it is a word of the form that is shown.
pub fn law_shown_text()
    ensures { (n : Notations) (book : CoreBook) (id : ℕ) (row column : ℤ) (t : Bound)
        → AreNotations n → IsValidCore n book → is_cell row column ≡ true
        → IsKept n (scene_of book) (Some id) row column t
        → clashes_with (λ word. is_some ((shown_at n book row column).find kinds.Boolean word))
        (λ word. is_some ((shown_at n book row column).find kinds.Function word)) t ≡ false
        → cell_formula n book id row column (shown_formula n book row column (formulas.Tree t))
        ≡ formulas.Tree t }
{}

/// A new sheet stands at the end of the book. In each formula, what dangled by a name that agrees with its own means the new
/// sheet, and each other mention is what it was.
pub fn law_add_sheet_binds()
    ensures { (n : Notations) (book after : CoreBook) (name : List ℕ) (fields : List Field)
        → AreNotations n → IsValidCore n book → add_sheet_step n book name ≡ Ok (after, fields)
        → after ≡ with_sheet_at_end (greatest_id book + 1) name
        (with_trees (changed_tree (sheet_named (scene_of book) (greatest_id book + 1) name)) book) }
{}

/// A renamed sheet has its new name. In each formula, what dangled by a name that agrees with it means that sheet, and each
/// other mention is what it was.
pub fn law_rename_binds()
    ensures { (n : Notations) (book after : CoreBook) (index : ℕ) (name : List ℕ) (sheet : Sheet)
        (fields : List Field) → AreNotations n → IsValidCore n book → slice_get book.sheets index
        ≡ Some sheet → rename_step n book index name ≡ Ok (after, fields) → after
        ≡ with_sheet_name index name
        (with_trees (changed_tree (sheet_named (scene_of book) sheet.id name)) book) }
{}

/// Over the rename of a sheet each mention that was found stands as it did, in the formula of each cell and in the body of
/// each definition.
pub fn law_rename_keeps()
    ensures { (n : Notations) (book after : CoreBook) (index : ℕ) (name : List ℕ)
        (fields : List Field) → AreNotations n → IsValidCore n book → rename_step n book index name
        ≡ Ok (after, fields) → BookKeepsFound book after }
{}

/// A sheet that was renamed can be renamed back to its old name, and this gives back the very book, where nothing dangled by
/// a name that agrees with the one between.
pub fn law_rename_back()
    ensures { (n : Notations) (book between : CoreBook) (index : ℕ) (name : List ℕ) (sheet : Sheet)
        (fields : List Field) → AreNotations n → IsValidCore n book → slice_get book.sheets index
        ≡ Some sheet → EachTree (λ scope t. NoneDanglesBy name t) book
        → rename_step n book index name ≡ Ok (between, fields)
        → rename_step n between index sheet.name ≡ Ok (book, []) }
{}

/// A deleted sheet is gone. In each formula, what meant it dangles by its name, and each other mention is what it was.
pub fn law_delete_sheet_dangles()
    ensures { (n : Notations) (book after : CoreBook) (index : ℕ) (sheet : Sheet)
        (fields : List Field) → AreNotations n → IsValidCore n book → slice_get book.sheets index
        ≡ Some sheet → delete_step n book index ≡ Ok (after, fields) → after
        ≡ without_sheet index
        (with_trees (changed_tree (sheet_gone (scene_of book) sheet.id sheet.name)) book) }
{}

/// A new definition stands at the end. In each formula, what could mean it does, and each other mention is what it was.
pub fn law_new_definition_binds()
    ensures { (n : Notations) (book after : CoreBook) (name : List ℕ) (index : Option ℕ)
        (text : List ℕ) (body : Body) (fields : List Field) → AreNotations n → IsValidCore n book
        → body_of n book text ≡ Some body → new_definition_step n book name index text
        ≡ Ok (after, fields) → after ≡ with_definition
        (new_definition n book name (scope_or_none book index) body)
        (with_trees (changed_tree (definition_added
        (record { name = name; scope = scope_or_none book index }))) book) }
{}

/// A deleted definition is gone. In each formula, what meant it means the one of an agreeing name that is local to no sheet,
/// or dangles by its name where there is none; and each other mention is what it was.
pub fn law_delete_definition_dangles()
    ensures { (n : Notations) (book after : CoreBook) (name : List ℕ) (scope : Option ℕ) (index : ℕ)
        (definition : Definition) (fields : List Field) → AreNotations n → IsValidCore n book
        → index_of_definition book name (scope_or_none book scope) ≡ Some index
        → slice_get book.definitions index ≡ Some definition
        → delete_definition_step n book name scope ≡ Ok (after, fields) → after
        ≡ without_definition (Some index) (with_trees
        (changed_tree (definition_gone (scene_of (without_definition (Some index) book))
        (spelling_of definition))) book) }
{}

/// A formula that stays the same when it is written out and bound again mentions what is there: a sheet that it means is one
/// of the scene, a definition that it means is found by its key, and for what dangles nothing is found.
pub fn law_settled_holds()
    ensures { (english : List ℕ → Option ℕ) (scene : Scene) (scope : Option ℕ) (t : Bound)
        → IsSettled english scene scope t → MentionsHold scene scope t }
{}

/// A formula that a change can't change is left as it is.
pub fn law_untouched_stays()
    ensures { (change : Change) (scope : Option ℕ) (t : Bound) → changes_tree change scope t ≡ false
        → changed_tree change scope t ≡ t }
{}

/// A moved sheet stands at its new index, the others in the order in which they stood; what is in them and all else is as it
/// was.
pub fn law_move_keeps()
    ensures { (n : Notations) (book after : CoreBook) (from to : ℕ) (fields : List Field)
        → IsValidCore n book → move_step book from to ≡ Ok (after, fields)
        → IsMoved from to book after }
{}

/// A new locale or a new language leaves sheets and definitions as they are, and one another.
pub fn law_notation_keeps()
    ensures locale { (n : Notations) (book after : CoreBook) (id : List ℕ) (fields : List Field)
        → locale_step n book id ≡ Ok (after, fields) → (after.sheets ≡ book.sheets)
        × (after.definitions ≡ book.definitions) × (after.locale ≡ id)
        × (after.language ≡ book.language) }
    ensures language { (n : Notations) (book after : CoreBook) (id : List ℕ) (fields : List Field)
        → language_step n book id ≡ Ok (after, fields) → (after.sheets ≡ book.sheets)
        × (after.definitions ≡ book.definitions) × (after.locale ≡ book.locale)
        × (after.language ≡ id) }
{}
