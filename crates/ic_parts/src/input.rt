//! Texts that are typed into cells, or given to them.
ghost use Rattle.std.specs.Prelude.{◌≡◌, None, chars, option_map};
ghost use Rattle.ic_parts.specs.Values.{style_change, typed_change, typed_content, typed_formula, value_content};

use crate::values::{Restyle, Value};
use ic_input::Typed;

/// The formula that a typed text is, as it stands after `=`.
pub fn typed_formula(typed: &Typed) -> Option<&str>
    ensures { option_map (λ f. chars f.now) result ≡ typed_formula typed.now }
{
    match typed {
        Typed::Formula(body) => Some(body.as_str()),
        _ => None,
    }
}

/// What a typed text that is no formula writes.
pub fn typed_value(typed: &Typed) -> Value<'_>
    ensures { value_content result ≡ typed_content typed.now }
{
    match typed {
        Typed::Empty | Typed::Formula(_) => Value::Empty,
        Typed::Number(amount, _) => Value::Number(*amount),
        Typed::Boolean(truth) => Value::Boolean(*truth),
        Typed::Error(error) => Value::Error(*error),
        Typed::Quoted(text) | Typed::Text(text) => Value::Text(text.as_str()),
    }
}

/// What becomes of the style where a typed text that is no formula is written.
pub fn typed_change(typed: &Typed) -> Restyle<'_>
    ensures { style_change result ≡ typed_change typed.now }
{
    match typed {
        Typed::Empty => Restyle::Nothing,
        Typed::Quoted(_) => Restyle::Quote(true),
        Typed::Number(_, Some(code)) => Restyle::Code(code.as_str()),
        _ => Restyle::Quote(false),
    }
}
