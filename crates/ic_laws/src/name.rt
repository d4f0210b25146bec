ghost use Rattle.std.specs.Prelude.{◌≡◌, ◌↔◌, IsTrue, chars};
ghost use Rattle.ic_laws.specs.Name.{Agree, agrees};

use caseless::default_caseless_match_str;

/// Whether two names agree: whether their Unicode default case foldings are equal. Nothing is normalized, so a
/// letter with a combining accent agrees only with one that is written the same way.
pub fn agree(a: &str, b: &str) -> bool
    ensures fact { IsTrue result ↔ Agree (chars a.now) (chars b.now) }
    ensures test { result ≡ agrees (chars a.now) (chars b.now) }
{
    default_caseless_match_str(a, b)
}
