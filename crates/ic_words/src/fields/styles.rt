//! Styles, as the fields of replies.
ghost use Rattle.ic_machine.specs.Fields.{optional_style_fields};
ghost use Rattle.ic_machine.specs.Styling.{style_fields};
ghost use Rattle.std.specs.Prelude.{true};

use crate::fields::Fields;
use crate::reply::{push_color, push_field, push_flag};
use ic_cells::Style;
use ic_laws::OutOfMemory;

/// A style, with four fields in this order: its code, its quote flag and its bold flag, each `1` or `0`, and the color of its
/// fill, or `-` where it has none.
impl Fields for Style {
    ghost fields = { style_fields };

    ghost memory = { true };

    fn write(&self, reply: &mut String) -> Result<(), OutOfMemory> {
        push_field(reply, self.num_fmt.as_str())?;
        push_flag(reply, self.quote_prefix)?;
        push_flag(reply, self.bold)?;
        push_color(reply, &self.fill)
    }
}

/// The four fields of a style, if there is one.
impl Fields for Option<Style> {
    ghost fields = { optional_style_fields };

    ghost memory = { true };

    fn write(&self, reply: &mut String) -> Result<(), OutOfMemory> {
        match self {
            Some(style) => style.write(reply),
            None => Ok(()),
        }
    }
}
