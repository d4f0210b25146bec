ghost use Rattle.std.specs.Prelude.{◌≡◌, IfOk, bytes_eq, chars, encode_utf8_all, string_bytes};

use crate::OutOfMemory;
use crate::scan::same_text;
use std::alloc::Global;
use std::fmt;
use std::marker::Model;

/// A text that contracts see as its list of characters (Unicode scalar values).
#[derive(Debug, Drop)]
pub struct Text {
    inner: String,
}

impl Model for Text {
    ghost use Rattle.std.specs.Prelude.{List, ℕ, chars, string_bytes};

    ghost Value = { List ℕ };

    ghost view = { λ t. chars (string_bytes t.inner) };
}

impl Text {
    /// A copy of `s`.
    pub fn from_str(alloc: Global, s: &str) -> Result<Text, OutOfMemory>
        ensures { IfOk result (λ t. t ≡ chars s.now) }
    {
        let inner = String::from_str(alloc, s)?;
        Ok(Text { inner })
    }

    /// The text itself.
    pub fn as_str(&self) -> &str
        ensures characters { chars result.now ≡ self.now }
        ensures bytes { result.now ≡ encode_utf8_all self.now }
    {
        self.inner.as_str()
    }

    /// Whether it is the text `s`, character by character.
    pub fn is(&self, s: &str) -> bool
        ensures { result ≡ bytes_eq self.now (chars s.now) }
    {
        same_text(self.inner.as_str(), s)
    }
}

impl From<String> for Text {
    ghost from_gives = { λ s t. t ≡ chars (string_bytes s) };

    fn from(inner: String) -> Text {
        Text { inner }
    }
}

/// It shows as it is.
impl fmt::Display for Text {
    ghost use Rattle.std.specs.Prelude.{Some, encode_utf8_all};

    ghost output = { λ t. Some (encode_utf8_all t) };

    fn fmt<W: fmt::Write>(&self, f: &mut fmt::Formatter<W>) -> fmt::Result {
        write!(f, "{}", self.as_str())
    }
}

/// Two texts are equal where their characters are.
impl PartialEq for Text {
    ghost use Rattle.std.specs.Prelude.{bytes_eq};
    ghost use Rattle.std.specs.Cmp.Rules.{comparing};

    ghost eq = { bytes_eq };

    ghost laws = { Prim.search comparing };

    fn eq(&self, other: &Text) -> bool {
        self.inner == other.inner
    }
}
