//! The lines that tell sites.
ghost use Rattle.std.specs.Prelude.{◌≡◌, ◌++◌, ◌∷◌, IfOk, OnOk, chars, flat_map, map, string_bytes};
ghost use Rattle.std.specs.Fmt.{decimal, signed_decimal};
ghost use Rattle.ic_laws.specs.Character.{tab};
ghost use Rattle.ic_machine.specs.Refusal.{CellSite, DefinitionSite};
ghost use Rattle.ic_parts.specs.Sites.{site_of};
ghost use Rattle.ic_audit.specs.Listed.{site_line, told_scope};

use ic_book::MentionSite;
use ic_laws::scan::{push_char, push_text};
use ic_laws::{NameKey, OutOfMemory};
use ic_lines::push_escaped;
use std::alloc::Global;

/// The lines of sites: of a cell the id of its sheet, its row and its column, of a definition its folded name and the id of the
/// sheet that it is local to. Only memory can be missing.
pub fn told(alloc: Global, sites: &[MentionSite]) -> Result<String, OutOfMemory>
    ensures { IfOk result (λ text. chars (string_bytes text)
        ≡ flat_map site_line (map site_of sites.now)) }
{
    let mut text = String::new(alloc);
    for site in sites {
        push_site(&mut text, site)?;
    }
    Ok(text)
}

/// Appends the line of a site.
fn push_site(text: &mut String, site: &MentionSite) -> Result<(), OutOfMemory>
    ensures { OnOk result (chars (string_bytes text.new) ≡ chars (string_bytes text.old)
        ++ site_line (site_of site.now)) }
{
    match site {
        MentionSite::Cell {
            sheet_id,
            row,
            column,
        } => push_cell(text, *sheet_id, *row, *column),
        MentionSite::Definition(key) => push_definition(text, key),
    }
}

/// Appends the line of a cell.
fn push_cell(text: &mut String, id: u32, row: i32, column: i32) -> Result<(), OutOfMemory>
    ensures { OnOk result (chars (string_bytes text.new) ≡ chars (string_bytes text.old)
        ++ site_line (CellSite id (row, column))) }
{
    push_text(text, "cell\t")?;
    push_number(text, id)?;
    push_position(text, row)?;
    push_position(text, column)?;
    push_char(text, '\n')?;
    Ok(())
}

/// Appends the line of a definition with this key.
fn push_definition(text: &mut String, key: &NameKey) -> Result<(), OutOfMemory>
    ensures { OnOk result (chars (string_bytes text.new) ≡ chars (string_bytes text.old)
        ++ site_line (DefinitionSite key.now)) }
{
    push_text(text, "name\t")?;
    push_escaped(text, key.name.as_str())?;
    push_char(text, '\t')?;
    push_scope(text, key.scope)?;
    push_char(text, '\n')?;
    Ok(())
}

/// Appends the id of the sheet that a definition is local to, or a minus.
fn push_scope(text: &mut String, scope: Option<u32>) -> Result<(), OutOfMemory>
    ensures { OnOk result (chars (string_bytes text.new) ≡ chars (string_bytes text.old)
        ++ told_scope scope) }
{
    match scope {
        Some(id) => push_number(text, id),
        None => push_char(text, '-'),
    }
}

/// Appends a tab and a row or a column.
fn push_position(text: &mut String, position: i32) -> Result<(), OutOfMemory>
    ensures { OnOk result (chars (string_bytes text.new) ≡ chars (string_bytes text.old)
        ++ (tab ∷ signed_decimal position)) }
{
    push_char(text, '\t')?;
    push_signed(text, position)?;
    Ok(())
}

/// Appends the decimal digits of a number, after a minus where it is below 0.
fn push_signed(text: &mut String, number: i32) -> Result<(), OutOfMemory>
    ensures { OnOk result (chars (string_bytes text.new) ≡ chars (string_bytes text.old)
        ++ signed_decimal number) }
{
    write!(text, "{number}")?;
    Ok(())
}

/// Appends the decimal digits of a number.
fn push_number(text: &mut String, number: u32) -> Result<(), OutOfMemory>
    ensures { OnOk result (chars (string_bytes text.new) ≡ chars (string_bytes text.old)
        ++ decimal number) }
{
    write!(text, "{number}")?;
    Ok(())
}
