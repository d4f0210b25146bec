ghost use Rattle.std.specs.Prelude.{◌≡◌, IfOk};

use ic_laws::{Constant, Items, OutOfMemory, Text};
use std::alloc::Global;

/// A copy of each text.
pub fn copy_texts(alloc: Global, texts: &[Text]) -> Result<Vec<Text>, OutOfMemory>
    ensures { IfOk result (λ r. r.items ≡ texts.now) }
{
    let mut out = Vec::with_capacity(alloc, texts.len())?;
    for text in texts {
        let copy = Text::from_str(alloc, text.as_str())?;
        out.push(copy)?;
    }
    Ok(out)
}

/// A copy of a constant.
fn copy_constant(alloc: Global, constant: &Constant) -> Result<Constant, OutOfMemory>
    ensures { IfOk result (λ r. r ≡ constant.now) }
{
    match constant {
        Constant::Num { minus, amount } => Ok(Constant::Num {
            minus: *minus,
            amount: *amount,
        }),
        Constant::Str(text) => Ok(Constant::Str(Text::from_str(alloc, text.as_str())?)),
        Constant::Bool(value) => Ok(Constant::Bool(*value)),
        Constant::Err(error) => Ok(Constant::Err(*error)),
    }
}

/// A copy of a row of an array.
fn copy_row(alloc: Global, row: &[Constant]) -> Result<Vec<Constant>, OutOfMemory>
    ensures { IfOk result (λ r. r.items ≡ row.now) }
{
    let mut out = Vec::with_capacity(alloc, row.len())?;
    for constant in row {
        let copy = copy_constant(alloc, constant)?;
        out.push(copy)?;
    }
    Ok(out)
}

/// A copy of the rows of an array.
pub fn copy_rows(
    alloc: Global,
    rows: &[Items<Constant>],
) -> Result<Vec<Items<Constant>>, OutOfMemory>
    ensures { IfOk result (λ r. r.items ≡ rows.now) }
{
    let mut out = Vec::with_capacity(alloc, rows.len())?;
    for row in rows {
        let copy = copy_row(alloc, row.as_slice())?;
        out.push(Items::from(copy))?;
    }
    Ok(out)
}
