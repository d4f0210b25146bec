ghost use Rattle.std.specs.Prelude.{◌≡◌, option_copied};
ghost use Rattle.ic_keep.specs.Change.{change_of};
ghost use Rattle.ic_laws.specs.Scene.{same_key, same_scope};

use ic_laws::NameKey;

/// The key of an updated definition, before and after.
#[derive(Drop)]
pub struct KeyChange {
    pub old: NameKey,
    pub new: NameKey,
}

/// The key that a definition has after the change, by the one that it had before.
pub fn changed_key<'k>(change: Option<&'k KeyChange>, key: &'k NameKey) -> &'k NameKey
    ensures { result.now ≡ change_of (option_copied change.entry) key.now }
{
    match change {
        None => key,
        Some(change) => {
            if is_same_key(&change.old, key) {
                &change.new
            } else {
                key
            }
        }
    }
}

/// Whether two keys are equal.
pub(crate) fn is_same_key(a: &NameKey, b: &NameKey) -> bool
    ensures { result ≡ same_key a.now b.now }
{
    a.name.is(b.name.as_str()) && is_same_scope(a.scope, b.scope)
}

/// Whether both are local to one sheet, or to none.
fn is_same_scope(a: Option<u32>, b: Option<u32>) -> bool
    ensures { result ≡ same_scope a b }
{
    match (a, b) {
        (None, None) => true,
        (Some(a), Some(b)) => a == b,
        _ => false,
    }
}
