//! The values of all formulas of a book.
ghost use Rattle.std.specs.Prelude.{◌≡◌, IfErr};
ghost use Rattle.ic_parts.specs.Book.{core_of};
ghost use Rattle.ic_parts.specs.Whole.{whole_of};
ghost use Rattle.ic_parts.specs.declared.error.BookError.TheVariants as errors;
ghost use Rattle.ic_sums.specs.Evaluated.{OnlyValues};

use crate::tree::{Evaluator, Mark, Place};
use ic_book::{BookError, Model};
use ic_laws::OutOfMemory;
use std::alloc::Global;
use std::collections::BTreeMap;

/// More turns than any machine makes.
const TURNS: u64 = u64::MAX;

/// Gives each formula of a book its value. Where memory runs out some formulas have theirs, and the others don't.
///
/// Whatever it answers, only values of formulas differ from before, and what their arrays gave to other cells: each other cell
/// is as it was, and so are all formulas and all else that the book holds. The only error is `OutOfMemory`.
pub fn evaluate(alloc: Global, model: &mut Model<'_>) -> Result<(), BookError>
    ensures only_values { OnlyValues (whole_of model.old.book) (whole_of model.new.book) }
    ensures core { core_of model.new.book ≡ core_of model.old.book }
    ensures looks_up { model.new.has_all ≡ model.old.has_all }
    ensures memory { IfErr result (λ e. e ≡ errors.OutOfMemory) }
{
    let Ok(cells) = model.get_all_cells() else {
        return Err(BookError::OutOfMemory);
    };
    let mut marks = BTreeMap::new(alloc);
    let mut path = Vec::new(alloc);
    for cell in cells {
        let at = (cell.index, cell.row, cell.column);
        let mark = match model.formula_at(at.0, at.1, at.2) {
            Ok(Some(_)) => Mark::New,
            _ => Mark::Known,
        };
        marks.insert(at, mark)?;
        path.push(at)?;
    }
    for _ in 0..TURNS {
        let Some(at) = path.last().copied() else {
            break;
        };
        look_at(alloc, model, at, &mut marks, &mut path)?;
    }
    Ok(())
}

/// Looks at the last cell of the path. Its formula gets its value, or the cells that it needs come behind it.
fn look_at(
    alloc: Global,
    model: &mut Model<'_>,
    at: Place,
    marks: &mut BTreeMap<Place, Mark>,
    path: &mut Vec<Place>,
) -> Result<(), OutOfMemory>
    ensures only_values { OnlyValues (whole_of model.old.book) (whole_of model.new.book) }
    ensures looks_up { model.new.has_all ≡ model.old.has_all }
{
    let length = path.len();
    let value = Evaluator {
        alloc,
        model,
        at,
        marks,
        path,
    }
    .formula()?;
    if path.len() > length {
        marks.insert(at, Mark::Waits)?;
        return Ok(());
    }
    path.pop();
    marks.insert(at, Mark::Known)?;
    let Some(value) = value else {
        return Ok(());
    };
    match model.put_formula_value(at.0, at.1, at.2, value) {
        Err(BookError::OutOfMemory) => Err(OutOfMemory),
        _ => Ok(()),
    }
}
