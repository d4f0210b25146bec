//! Texts of closed lists.
ghost use Rattle.std.specs.Prelude.{◌≡◌, chars};
ghost use Rattle.ic_machine.specs.Word.{bool_said, flag_said, state_said};

use ic_cells::SheetState;

/// The truth that a text says: `true` or `false`. None for any other text.
pub(crate) fn bool_in(text: &str) -> Option<bool>
    ensures { result ≡ bool_said (chars text.now) }
{
    match text {
        "true" => Some(true),
        "false" => Some(false),
        _ => None,
    }
}

/// The truth that a flag says: `1` or `0`. None for any other text.
pub(crate) fn flag_in(text: &str) -> Option<bool>
    ensures { result ≡ flag_said (chars text.now) }
{
    match text {
        "1" => Some(true),
        "0" => Some(false),
        _ => None,
    }
}

/// The state of a sheet that a text says: `visible`, `hidden` or `veryHidden`. None for any other text.
pub(crate) fn state_in(text: &str) -> Option<SheetState>
    ensures { result ≡ state_said (chars text.now) }
{
    match text {
        "visible" => Some(SheetState::Visible),
        "hidden" => Some(SheetState::Hidden),
        "veryHidden" => Some(SheetState::VeryHidden),
        _ => None,
    }
}
