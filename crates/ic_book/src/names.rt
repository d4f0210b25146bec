//! What finds the sheets and the definitions of a book by their names.
ghost use Rattle.std.specs.Prelude.{◌≡◌, ℕ, List, bytes_eq, encode_utf8_all, find, option_map, position};
ghost use Rattle.std.specs.BTreeMap.{get_by_text};
ghost use Rattle.ic_laws.specs.Name.{fold};
ghost use Rattle.ic_laws.specs.Scene.{same_key};
ghost use Rattle.ic_laws.specs.declared.tree.NameKey.{NameKey};
ghost use Rattle.ic_definitions.specs.Named.{key_in, place_at};

use crate::Model;
use ic_parts::NameIndex;

impl<'a> Model<'a> {
    /// What the book finds its sheets and its definitions by, as it stands: it is lent, and takes no memory.
    pub fn name_index(&self) -> &NameIndex
        // Each sheet is there under its folded name, and nothing else is.
        ensures sheets { (name : List ℕ) → get_by_text result.now.sheets (encode_utf8_all name)
            ≡ option_map (λ s. s.id) (find (λ s. bytes_eq (fold s.name) name)
            self.now.book.sheets) }

        // Each definition is there under its folded name and its scope, and nothing else is.
        ensures names { (key : NameKey) → place_at result.now.names key
            ≡ position (λ d. same_key (key_in d) key) self.now.book.definitions }
    {
        &self.names
    }
}
