ghost use Rattle.std.specs.Prelude.{◌≡◌, ◌<◌, [], ◌∷◌, length, take, chars, option_copied, IfOk, OnErr, OnOk, true, false};
ghost use Rattle.std.specs.List.{slice_get};
ghost use Rattle.ic_cells.specs.Listed.{IsPlaced};
ghost use Rattle.ic_cells.specs.Style.{AreStyles, default_style, style_at, style_number, with_format, with_quote_prefix, with_style_in};

use crate::Style;
use crate::key::Key;
use ic_laws::OutOfMemory;
use std::alloc::Global;
use std::collections::BTreeMap;
use std::marker::Model;

/// The styles of a workbook, by number from 0. The default one is the first, and no two are equal. Callers see the list;
/// beside it stands a map from the fields of a style to its number, so that one of many styles is found at once.
pub struct Styles {
    alloc: Global,
    list: Vec<Style>,
    index: BTreeMap<Key, usize>,
}

impl Drop for Styles {
    fn drop(self) {
        let Self { alloc, list, index } = self;
        drop(alloc);
        drop(list);
        drop(index);
    }
}

impl Model for Styles {
    ghost use Rattle.std.specs.Prelude.{List};
    ghost use Rattle.ic_cells.specs.declared.style.Style.{Style};
    ghost use Rattle.ic_cells.specs.Key.{IsIndexed};

    ghost Value = { List Style };

    ghost view = { λ s. s.list.items };

    ghost invariant = { λ s. IsIndexed s.index s.list.items };
}

impl Styles {
    /// The default style alone: the code `General`, no flag, no fill. Only memory can be missing.
    pub fn new(alloc: Global) -> Result<Styles, OutOfMemory>
        ensures { IfOk result (λ s. s ≡ default_style ∷ []) }
    {
        let style = Style::default(alloc)?;
        let key = Key::new(alloc, &style)?;
        let mut list = Vec::new(alloc);
        list.push(style)?;
        let mut index = BTreeMap::new(alloc);
        index.insert(key, 0)?;
        Ok(Styles { alloc, list, index })
    }

    /// The style of a number. None exactly where there are not so many.
    pub fn get_style(&self, index: usize) -> Option<&Style>
        ensures { option_copied result ≡ slice_get self.now index }
    {
        self.list.as_slice().get(index)
    }

    /// The number of the first equal style; where there is none, the style is put at the end. Only memory can be missing,
    /// and then nothing has changed.
    pub fn get_style_index_or_create(&mut self, style: &Style) -> Result<usize, OutOfMemory>
        ensures number { IfOk result (λ n. n ≡ style_number style.now self.old) }
        ensures styles { OnOk result (self.new ≡ with_style_in style.now self.old) }
        ensures placed { IfOk result (λ n. IsPlaced style.now n self.old self.new) }
        ensures err { OnErr result (self.new ≡ self.old) }
    {
        let key = Key::new(self.alloc, style)?;
        if let Some(at) = self.index.get(&key) {
            return Ok(*at);
        }
        let copy = style.copy(self.alloc)?;
        let at = self.list.as_slice().len();
        self.list.reserve(1)?;
        self.index.insert(key, at)?;
        self.list.push_reserved(copy);
        Ok(at)
    }

    /// Whether the style of a number has the quote flag.
    pub fn style_is_quote_prefix(&self, index: usize) -> bool
        requires { index < length self.now }
        ensures { result ≡ (style_at self.now index).quote_prefix }
    {
        self.list[index].quote_prefix
    }

    /// The number of the style of a number, but with the quote flag, found or put at the end as by
    /// `get_style_index_or_create`.
    pub fn get_style_with_quote_prefix(&mut self, index: usize) -> Result<usize, OutOfMemory>
        requires { index < length self.old }
        ensures number { IfOk result (λ n. n ≡ style_number
            (with_quote_prefix true (style_at self.old index)) self.old) }
        ensures styles { OnOk result (self.new
            ≡ with_style_in (with_quote_prefix true (style_at self.old index)) self.old) }
        ensures err { OnErr result (self.new ≡ self.old) }
    {
        let style = self.list[index].with_quote_prefix(self.alloc, true)?;
        self.get_style_index_or_create(&style)
    }

    /// The number of the style of a number, but without the quote flag, found or put at the end as by
    /// `get_style_index_or_create`.
    pub fn get_style_without_quote_prefix(&mut self, index: usize) -> Result<usize, OutOfMemory>
        requires { index < length self.old }
        ensures number { IfOk result (λ n. n ≡ style_number
            (with_quote_prefix false (style_at self.old index)) self.old) }
        ensures styles { OnOk result (self.new
            ≡ with_style_in (with_quote_prefix false (style_at self.old index)) self.old) }
        ensures err { OnErr result (self.new ≡ self.old) }
    {
        let style = self.list[index].with_quote_prefix(self.alloc, false)?;
        self.get_style_index_or_create(&style)
    }

    /// The number of the style of a number, but with this code, found or put at the end as by
    /// `get_style_index_or_create`.
    pub fn get_style_with_format(&mut self, index: usize, code: &str) -> Result<usize, OutOfMemory>
        requires { index < length self.old }
        ensures number { IfOk result (λ n. n ≡ style_number
            (with_format (chars code.now) (style_at self.old index)) self.old) }
        ensures styles { OnOk result (self.new
            ≡ with_style_in (with_format (chars code.now) (style_at self.old index)) self.old) }
        ensures err { OnErr result (self.new ≡ self.old) }
    {
        let style = self.list[index].with_format(self.alloc, code)?;
        self.get_style_index_or_create(&style)
    }

    /// How many styles there are.
    pub fn len(&self) -> usize
        ensures exact { result ≡ length self.now }

        // The default is the first of them, and no two are equal.
        ensures styles { AreStyles self.now }
    {
        self.list.as_slice().len()
    }

    /// Keeps the first `len` styles, at least one. Where there are no more, all stay.
    pub fn truncate(&mut self, len: usize)
        requires { 0 < len }
        ensures { self.new ≡ take len self.old }
    {
        self.index.retain(|_, place| *place < len);
        self.list.truncate(len);
    }
}
