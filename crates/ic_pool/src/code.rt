ghost use Rattle.std.specs.Prelude.{◌≡◌, IfOk};
ghost use Rattle.ic_pool.specs.Code.{code};

mod numbers;
mod texts;
mod tree;

use crate::{HashedKey, Key};
use ic_laws::{Formula, OutOfMemory};
use std::alloc::Global;
use texts::write_text;
use tree::write_tree;

/// The bytes that most keys of a formula have room in while they are written.
const ROOM: usize = 128;

/// The key that determines a formula.
pub fn key_of(alloc: Global, formula: &Formula) -> Result<HashedKey, OutOfMemory>
    ensures { IfOk result (λ key. key ≡ code formula.now) }
{
    let mut key = Key::with_room(alloc, ROOM)?;
    match formula {
        Formula::Tree(tree) => {
            key.push(0)?;
            write_tree(&mut key, tree)?;
        }
        Formula::Raw(text) => {
            key.push(1)?;
            write_text(&mut key, text.as_str())?;
        }
    }
    Ok(HashedKey::new(key))
}
