//! Formulas that are handed in by their texts. Only memory can be missing.
ghost use Rattle.std.specs.Prelude.{◌≡◌, IfOk, bytes_eq, chars, codes, option_map, pos};
ghost use Rattle.ic_laws.specs.Binding.{bound};
ghost use Rattle.ic_laws.specs.ReadAs.{read_as};
ghost use Rattle.ic_laws.specs.Scene.{past_front};
ghost use Rattle.ic_laws.specs.declared.tree.Formula.TheVariants as formulas;
ghost use Rattle.ic_tree.specs.LanguageWords.{function_of};
ghost use Rattle.ic_tree.specs.Notations.{in_english};
ghost use Rattle.ic_workbooks.specs.HandedIn.{formula_of, formula_read, if_own};
ghost use Rattle.ic_workbooks.specs.Texts.{AreRead, body_formula_in, sheet_formula_in};
ghost use Rattle.ic_workbooks.specs.Workbook.{text_in};

use crate::workbook::text_in;
use ic_laws::scan::first_char;
use ic_laws::{Dialect, Finder, Formula, OutOfMemory, Text};
use ic_parts::definitions::body::past_equals;
use ic_tables::{Language, Tables};
use ic_tree::{Shown, Stored, read_typed, settle};
use std::alloc::Global;

/// The formulas of the sheet with this id, by their texts in the stored form, with the names that things have in a scene.
/// None exactly where some text isn't the stored text of what it reads as.
pub(crate) fn sheet_formulas<N: Finder>(
    alloc: Global,
    tables: &Tables,
    names: &N,
    id: u32,
    texts: &[Text],
) -> Result<Option<Vec<Formula>>, OutOfMemory>
    ensures { IfOk result (λ made. AreRead (sheet_formula_in tables.now (N.scene names.now) id)
        texts.now (option_map (λ formulas. formulas.items) made)) }
{
    let mut formulas = Vec::new(alloc);
    for text in texts {
        match sheet_formula(alloc, tables, names, id, text.as_str())? {
            Some(formula) => formulas.push(formula)?,
            None => return Ok(None),
        }
    }
    Ok(Some(formulas))
}

/// A formula of the sheet with this id, by its text in the stored form.
pub(crate) fn sheet_formula<N: Finder>(
    alloc: Global,
    tables: &Tables,
    names: &N,
    id: u32,
    text: &str,
) -> Result<Option<Formula>, OutOfMemory>
    ensures { IfOk result (λ f. f ≡ sheet_formula_in tables.now (N.scene names.now) id
        (chars text.now)) }
{
    let english = tables.get_default_language();
    let stored = Stored::new(tables);
    formula_of(alloc, &stored, names, english, Some(id), text)
}

/// The body of a definition that is local to the sheet with the id `scope`, or to none, by its text in English for the cell
/// at row 1 and column 1, after one `=` at most.
pub(crate) fn body_formula<N: Finder>(
    alloc: Global,
    tables: &Tables,
    names: &N,
    scope: Option<u32>,
    text: &str,
) -> Result<Option<Formula>, OutOfMemory>
    ensures { IfOk result (λ f. f ≡ body_formula_in tables.now (N.scene names.now) scope
        (chars text.now)) }
{
    let (_, body) = past_equals(text);
    let english = tables.get_default_language();
    formula_of(alloc, &first_cell(tables), names, english, scope, body)
}

/// How formulas are written in English in the cell at row 1 and column 1.
fn first_cell<'t>(tables: &'t Tables) -> Shown<'t>
    ensures { ⟦<Shown<'t> as Dialect>⟧.meaning result ≡ in_english tables.now (pos 1) (pos 1) }
{
    let locale = tables.get_default_locale();
    Shown::new(tables, locale, tables.get_default_language(), 1, 1)
}

/// The formula that a text stands for in a form, where the text is the formula's own in that form. A text after a closing
/// bracket is one that didn't read; any other is a formula that reads, bound for the sheet with the id `scope`, or for none.
pub(crate) fn formula_of<D: Dialect, N: Finder>(
    alloc: Global,
    d: &D,
    names: &N,
    english: &Language,
    scope: Option<u32>,
    text: &str,
) -> Result<Option<Formula>, OutOfMemory>
    ensures { IfOk result (λ f. f ≡ formula_of (D.meaning d.now) (function_of english.now)
        (N.scene names.now) scope (chars text.now)) }
{
    match formula_read(alloc, d, names, english, scope, text)? {
        Some(formula) => if_own(alloc, d, names, text, formula),
        None => Ok(None),
    }
}

/// The formula that a text stands for.
fn formula_read<D: Dialect, N: Finder>(
    alloc: Global,
    d: &D,
    names: &N,
    english: &Language,
    scope: Option<u32>,
    text: &str,
) -> Result<Option<Formula>, OutOfMemory>
    ensures { IfOk result (λ f. f ≡ formula_read (D.meaning d.now) (function_of english.now)
        (N.scene names.now) scope (chars text.now)) }
{
    match past_bracket(text) {
        Some(raw) => Ok(Some(Formula::Raw(Text::from_str(alloc, raw)?))),
        None => tree_read(alloc, d, names, english, scope, text),
    }
}

/// The tree that a text reads as, bound to what it finds.
fn tree_read<D: Dialect, N: Finder>(
    alloc: Global,
    d: &D,
    names: &N,
    english: &Language,
    scope: Option<u32>,
    text: &str,
) -> Result<Option<Formula>, OutOfMemory>
    ensures { IfOk result (λ f. f ≡ option_map (λ t. formulas.Tree (bound (function_of english.now)
        (N.scene names.now) scope t)) (read_as (D.meaning d.now) (chars text.now))) }
{
    let Some(mut tree) = read_typed(alloc, d, text)? else {
        return Ok(None);
    };
    settle(alloc, names, english, scope, &mut tree)?;
    Ok(Some(Formula::Tree(tree)))
}

/// A formula where a text is its own in a form.
fn if_own<D: Dialect, N: Finder>(
    alloc: Global,
    d: &D,
    names: &N,
    text: &str,
    formula: Formula,
) -> Result<Option<Formula>, OutOfMemory>
    ensures { IfOk result (λ f. f ≡ if_own (D.meaning d.now) (N.scene names.now) (chars text.now)
        formula) }
{
    if is_own(alloc, d, names, text, &formula)? {
        return Ok(Some(formula));
    }
    Ok(None)
}

/// Whether a text is the formula's own in a form.
fn is_own<D: Dialect, N: Finder>(
    alloc: Global,
    d: &D,
    names: &N,
    text: &str,
    formula: &Formula,
) -> Result<bool, OutOfMemory>
    ensures { IfOk result (λ own. own ≡ bytes_eq (text_in (D.meaning d.now) (N.scene names.now)
        formula.now) (chars text.now)) }
{
    let own = text_in(alloc, d, names, formula)?;
    Ok(own.is(text))
}

/// What stands after a closing bracket at the front of a text. None exactly where none stands there.
fn past_bracket(text: &str) -> Option<&str>
    ensures { option_map (λ rest. chars rest.now) result ≡ past_front (codes ")")
        (chars text.now) }
{
    match first_char(text) {
        Some((')', rest)) => Some(rest),
        _ => None,
    }
}
