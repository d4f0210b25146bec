ghost use Rattle.std.specs.Prelude.{◌≡◌, IfOk};

use ic_laws::{Boxed, Constant, Items, NameKey, NameMention, OutOfMemory, SheetMention, Text};
use std::alloc::Global;

/// A copy of what names the sheet of a reference.
pub fn copy_sheet(alloc: Global, sheet: &SheetMention) -> Result<SheetMention, OutOfMemory>
    ensures { IfOk result (λ copy. copy ≡ sheet.now) }
{
    match sheet {
        SheetMention::Own => Ok(SheetMention::Own),
        SheetMention::Sheet(id) => Ok(SheetMention::Sheet(*id)),
        SheetMention::Dangling(name) => {
            Ok(SheetMention::Dangling(Boxed::from_str(alloc, name.as_ref().as_str())?))
        }
    }
}

/// A copy of a word.
pub fn copy_word(alloc: Global, word: &NameMention) -> Result<NameMention, OutOfMemory>
    ensures { IfOk result (λ copy. copy ≡ word.now) }
{
    match word {
        NameMention::Var(word) => Ok(NameMention::Var(Boxed::from_str(
            alloc,
            word.as_ref().as_str(),
        )?)),
        NameMention::Name(key) => {
            let key = copy_key(alloc, key.as_ref())?;
            Ok(NameMention::Name(Boxed::new(alloc, key)?))
        }
        NameMention::Dangling(word) => {
            Ok(NameMention::Dangling(Boxed::from_str(alloc, word.as_ref().as_str())?))
        }
    }
}

/// A copy of a word with its sheet.
pub fn copy_local(
    alloc: Global,
    sheet: &SheetMention,
    word: &NameMention,
) -> Result<(SheetMention, NameMention), OutOfMemory>
    ensures { IfOk result (λ copy. copy ≡ (sheet.now, word.now)) }
{
    let sheet = copy_sheet(alloc, sheet)?;
    let word = copy_word(alloc, word)?;
    Ok((sheet, word))
}

/// A copy of the key of a definition.
pub fn copy_key(alloc: Global, key: &NameKey) -> Result<NameKey, OutOfMemory>
    ensures { IfOk result (λ copy. copy ≡ key.now) }
{
    let name = Text::from_str(alloc, key.name.as_str())?;
    let scope = key.scope;
    Ok(NameKey { name, scope })
}

/// A copy of each text.
pub fn copy_texts(alloc: Global, texts: &[Text]) -> Result<Vec<Text>, OutOfMemory>
    ensures { IfOk result (λ copies. copies.items ≡ texts.now) }
{
    let mut out = Vec::with_capacity(alloc, texts.len())?;
    for text in texts {
        let copy = Text::from_str(alloc, text.as_str())?;
        out.push(copy)?;
    }
    Ok(out)
}

/// A copy of a constant.
fn copy_constant(alloc: Global, constant: &Constant) -> Result<Constant, OutOfMemory>
    ensures { IfOk result (λ copy. copy ≡ constant.now) }
{
    match constant {
        Constant::Num { minus, amount } => Ok(Constant::Num {
            minus: *minus,
            amount: *amount,
        }),
        Constant::Str(text) => Ok(Constant::Str(Text::from_str(alloc, text.as_str())?)),
        Constant::Bool(value) => Ok(Constant::Bool(*value)),
        Constant::Err(error) => Ok(Constant::Err(*error)),
    }
}

/// A copy of a row of an array.
fn copy_row(alloc: Global, row: &[Constant]) -> Result<Vec<Constant>, OutOfMemory>
    ensures { IfOk result (λ copies. copies.items ≡ row.now) }
{
    let mut out = Vec::with_capacity(alloc, row.len())?;
    for constant in row {
        let copy = copy_constant(alloc, constant)?;
        out.push(copy)?;
    }
    Ok(out)
}

/// A copy of the rows of an array.
pub fn copy_rows(
    alloc: Global,
    rows: &[Items<Constant>],
) -> Result<Vec<Items<Constant>>, OutOfMemory>
    ensures { IfOk result (λ copies. copies.items ≡ rows.now) }
{
    let mut out = Vec::with_capacity(alloc, rows.len())?;
    for row in rows {
        let copy = copy_row(alloc, row.as_slice())?;
        out.push(Items::from(copy))?;
    }
    Ok(out)
}
