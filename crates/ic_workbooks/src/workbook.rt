//! A book as the plain records of a workbook.
ghost use Rattle.std.specs.Prelude.{◌≡◌, IfOk, chars};
ghost use Rattle.ic_workbooks.specs.Workbook.{sign_of, text_in};

use ic_cells::WorkbookSettings;
use ic_laws::{Dialect, Finder, Formula, OutOfMemory, Text};
use ic_parts::copies::copy_text;
use ic_parts::formulas::after_sign;
use ic_tree::print_bound;
use std::alloc::Global;

/// The text of a formula in a form, with the names that things have in a scene.
pub fn text_in<D: Dialect, N: Finder>(
    alloc: Global,
    d: &D,
    names: &N,
    formula: &Formula,
) -> Result<Text, OutOfMemory>
    ensures { IfOk result (λ text. text
        ≡ text_in (D.meaning d.now) (N.scene names.now) formula.now) }
{
    match formula {
        Formula::Tree(tree) => Ok(Text::from(print_bound(alloc, d, names, "", tree)?)),
        Formula::Raw(text) => Ok(Text::from(after_sign(alloc, ")", text.as_str())?)),
    }
}

/// The equals sign of a body that was typed with one, and nothing for another.
pub fn sign_of(has_equals: bool) -> &'static str
    ensures { chars result.now ≡ sign_of has_equals }
{
    if has_equals { "=" } else { "" }
}

/// The settings of a workbook.
pub fn settings_with(
    alloc: Global,
    zone: &Text,
    locale: &Text,
) -> Result<WorkbookSettings, OutOfMemory>
    ensures { IfOk result (λ settings. settings ≡ record { tz = zone.now; locale = locale.now }) }
{
    let tz = copy_text(alloc, zone)?;
    let locale = copy_text(alloc, locale)?;
    Ok(WorkbookSettings { tz, locale })
}
