ghost use Rattle.std.specs.Prelude.{◌≡◌, IfOk, chars};
ghost use Rattle.ic_cells.specs.Style.{default_style, with_format, with_quote_prefix};

use ic_laws::{OutOfMemory, Text};
use std::alloc::Global;

/// The colour of a fill or of a sheet's tab.
#[derive(Drop)]
pub enum Color {
    None,
    /// As it was given, such as `#FF8800`.
    Rgb(Text),
}

/// How a cell looks.
pub struct Style {
    /// The code by which its number is shown, such as `#,##0.00`.
    pub num_fmt: Text,
    /// Whether its text was typed after a `'`.
    pub quote_prefix: bool,
    pub bold: bool,
    /// The colour behind its text.
    pub fill: Color,
}

impl Drop for Style {
    fn drop(self) {
        let Self {
            num_fmt,
            quote_prefix: _,
            bold: _,
            fill,
        } = self;
        drop(num_fmt);
        drop(fill);
    }
}

impl Color {
    /// The same colour. Only memory can be missing.
    pub fn copy(&self, alloc: Global) -> Result<Color, OutOfMemory>
        ensures { IfOk result (λ c. c ≡ self.now) }
    {
        match self {
            Color::None => Ok(Color::None),
            Color::Rgb(text) => Ok(Color::Rgb(Text::from_str(alloc, text.as_str())?)),
        }
    }
}

impl Style {
    /// The style of a cell that was given none: the code `General`, no flag, no fill.
    #[tactic(auto, using(crate::proofs::Literals::literals))]
    pub(crate) fn default(alloc: Global) -> Result<Style, OutOfMemory>
        ensures { IfOk result (λ s. s ≡ default_style) }
    {
        Ok(Style {
            num_fmt: Text::from_str(alloc, "General")?,
            quote_prefix: false,
            bold: false,
            fill: Color::None,
        })
    }

    /// The same style. Only memory can be missing.
    pub fn copy(&self, alloc: Global) -> Result<Style, OutOfMemory>
        ensures { IfOk result (λ s. s ≡ self.now) }
    {
        self.with_format(alloc, self.num_fmt.as_str())
    }

    /// The style with this quote flag.
    pub(crate) fn with_quote_prefix(
        &self,
        alloc: Global,
        quote_prefix: bool,
    ) -> Result<Style, OutOfMemory>
        ensures { IfOk result (λ s. s ≡ with_quote_prefix quote_prefix self.now) }
    {
        let mut style = self.copy(alloc)?;
        style.quote_prefix = quote_prefix;
        Ok(style)
    }

    /// The style with this code.
    pub(crate) fn with_format(&self, alloc: Global, code: &str) -> Result<Style, OutOfMemory>
        ensures { IfOk result (λ s. s ≡ with_format (chars code.now) self.now) }
    {
        let fill = self.fill.copy(alloc)?;
        let num_fmt = Text::from_str(alloc, code)?;
        Ok(Style {
            num_fmt,
            quote_prefix: self.quote_prefix,
            bold: self.bold,
            fill,
        })
    }
}
