//! The bodies of definitions, read and bound.
ghost use Rattle.std.specs.Prelude.{◌≡◌, Some, IfOk, chars, option_map, pos};
ghost use Rattle.ic_laws.specs.CoreStep.{new_definition};
ghost use Rattle.ic_laws.specs.FormulaReading.{body_of};
ghost use Rattle.ic_laws.specs.Notations.{english};
ghost use Rattle.ic_parts.specs.Book.{core_of, notations_in};
ghost use Rattle.ic_parts.specs.Definitions.{body_of_typed};

use crate::Model;
use caseless::default_case_fold_str;
use ic_definitions::Definition;
use ic_laws::{Dialect, Formula, NameKey, OutOfMemory, Text, Tree};
use ic_parts::definitions::body::{TypedBody, lambda_in, past_equals, reference_in};
use ic_parts::scene::SceneWithDefinition;
use ic_tree::{Shown, bind};

impl<'a> Model<'a> {
    /// The body that a text is: a reference to a sheet of the book, with or without blanks around it, or a LAMBDA, with or
    /// without an equals sign before it, in the notation in force or else in English. None exactly where it is neither.
    pub(crate) fn typed_body(&self, text: &str) -> Result<Option<TypedBody>, OutOfMemory>
        ensures { IfOk result (λ body. option_map body_of_typed body ≡ body_of
            (notations_in self.now.book) (core_of self.now.book) (chars text.now)) }
    {
        let shown = self.shown(1, 1);
        if let Some(tree) = reference_in(self.alloc, &shown, &self.scene(), text)? {
            return Ok(Some(TypedBody {
                has_equals: false,
                tree,
            }));
        }
        let (has_equals, lambda) = past_equals(text);
        match lambda_in(self.alloc, &shown, &self.english(), lambda)? {
            Some(tree) => Ok(Some(TypedBody { has_equals, tree })),
            None => Ok(None),
        }
    }

    /// The definition of this name and with this body, which is bound where the definition is there too.
    pub(crate) fn definition_of(
        &self,
        name: &str,
        scope: Option<u32>,
        body: &TypedBody,
    ) -> Result<Definition, OutOfMemory>
        ensures { IfOk result (λ d. d ≡ new_definition (notations_in self.now.book)
            (core_of self.now.book) (chars name.now) scope (body_of_typed body.now)) }
    {
        let folded = Text::from(default_case_fold_str(self.alloc, name)?);
        let key = NameKey {
            name: folded,
            scope,
        };
        let scene = SceneWithDefinition::new(self.scene(), name, &key);
        let english = self.notation.get_default_language();
        let tree = bind(self.alloc, &scene, english, scope, &body.tree)?;
        Definition::new(
            self.alloc,
            name,
            scope,
            body.has_equals,
            Formula::Tree(tree),
        )
    }

    /// How formulas are written in English in the first cell.
    fn english(&self) -> Shown<'a>
        ensures { ⟦<Shown<'a> as Dialect>⟧.meaning result ≡
            (notations_in self.now.book).shown english english (pos 1) (pos 1) }
    {
        let locale = self.notation.get_default_locale();
        Shown::new(
            self.notation.tables(),
            locale,
            self.notation.get_default_language(),
            1,
            1,
        )
    }
}
