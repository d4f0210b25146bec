//! Array formulas, the values of formulas, spills, and clearing.
ghost use Rattle.std.specs.Prelude.{◌≡◌, None, Some, chars, option_map};
ghost use Rattle.ic_parts.specs.Arrays.{after_equals, block_of};

use ic_grid::Block;
use ic_laws::scan::first_char;
use ic_refs::Area;

/// What stands after `=` at the front of a text. None exactly where it doesn't begin so, or nothing follows.
pub fn after_equals(text: &str) -> Option<&str>
    ensures { option_map (λ body. chars body.now) result ≡ after_equals (chars text.now) }
{
    let (c, body) = first_char(text)?;
    if c != '=' || first_char(body).is_none() {
        return None;
    }
    Some(body)
}

/// The block of an area.
pub fn block_of(area: &Area) -> Block
    ensures { result ≡ block_of area.now }
{
    Block {
        row: area.row,
        column: area.column,
        width: area.width,
        height: area.height,
    }
}
