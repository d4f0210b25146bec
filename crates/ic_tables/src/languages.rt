ghost use Rattle.std.specs.Prelude.{◌≡◌, IfOk, bytes_eq, chars, find, option_map};

use crate::order::order_languages;
use crate::vocabulary::words_among;
use crate::{Language, WordOrder, Words};
use ic_laws::{Items, OutOfMemory};
use std::alloc::Global;
use std::marker::Model;

/// Languages with the orders of their words, which contracts see as the list of the languages.
pub struct Languages {
    list: Items<Language>,
    orders: Items<WordOrder>,
}

impl Drop for Languages {
    fn drop(self) {
        let Self { list, orders } = self;
        drop(list);
        drop(orders);
    }
}

impl Model for Languages {
    ghost use Rattle.std.specs.Prelude.{List};
    ghost use Rattle.ic_tables.specs.declared.language.Language.{Language};
    ghost use Rattle.ic_tables.specs.Order.{AreOrdered};

    ghost Value = { List Language };

    ghost view = { λ l. l.list };

    ghost invariant = { λ l. AreOrdered l.list l.orders };
}

impl Languages {
    /// These languages, whose words are ordered here, once.
    pub fn new(alloc: Global, list: Items<Language>) -> Result<Languages, OutOfMemory>
        ensures { IfOk result (λ l. l ≡ list) }
    {
        let orders = order_languages(alloc, list.as_slice())?;
        Ok(Languages { list, orders })
    }

    /// The languages in their order.
    pub fn as_slice(&self) -> &[Language]
        ensures { result.now ≡ self.now }
    {
        self.list.as_slice()
    }

    /// The words of the language with this code. None exactly where there is none.
    pub fn words(&self, code: &str) -> Option<Words<'_>>
        ensures { option_map (λ w. w.language.now) result
            ≡ find (λ l. bytes_eq l.code (chars code.now)) self.now }
    {
        words_among(self.list.as_slice(), self.orders.as_slice(), code)
    }
}
