//! Pieces of a formula's text.
ghost use Rattle.std.specs.Prelude.{◌≡◌, ◌++◌, [], ◌∷◌, chars, codes, string_bytes, OnOk};
ghost use Rattle.ic_laws.specs.Dialect.{word_text};
ghost use Rattle.ic_laws.specs.Token.{sign_text};
ghost use Rattle.ic_laws.specs.declared.dialect.WordKind.TheVariants as kinds;
ghost use Rattle.ic_tree.specs.Printed.{each_before, prefix_sign};

use crate::constant::push_word;
use ic_laws::scan::{push_char, push_text};
use ic_laws::{BinarySign, Dialect, OutOfMemory, PrefixSign, Text, WordKind};

/// The room that the text of a formula has from the start, in bytes: most are no longer.
pub(crate) const ROOM: usize = 64;

// Appends a sign that stands before an operand.
pub(crate) fn push_prefix(out: &mut String, sign: PrefixSign) -> Result<(), OutOfMemory>
    ensures { OnOk result (chars (string_bytes out.new) ≡ chars (string_bytes out.old)
        ++ prefix_sign sign ∷ []) }
{
    let c = match sign {
        PrefixSign::Plus => '+',
        PrefixSign::Minus => '-',
        PrefixSign::At => '@',
    };
    push_char(out, c)
}

// The text of a sign between two operands.
#[tactic(auto, unfolding(crate::proofs::Literals::literal))]
pub(crate) fn sign_text(sign: BinarySign) -> &'static str
    ensures { chars result.now ≡ sign_text sign }
{
    match sign {
        BinarySign::Equal => "=",
        BinarySign::Unequal => "<>",
        BinarySign::Less => "<",
        BinarySign::Greater => ">",
        BinarySign::AtMost => "<=",
        BinarySign::AtLeast => ">=",
        BinarySign::Join => "&",
        BinarySign::Plus => "+",
        BinarySign::Minus => "-",
        BinarySign::Times => "*",
        BinarySign::Over => "/",
        BinarySign::Power => "^",
    }
}

// Appends the word of a function and the bracket that opens its arguments.
pub(crate) fn push_head<D: Dialect>(
    d: &D,
    out: &mut String,
    number: usize,
) -> Result<(), OutOfMemory>
    ensures { OnOk result (chars (string_bytes out.new) ≡ chars (string_bytes out.old)
        ++ (word_text (D.meaning d.now) kinds.Function number ++ codes "(")) }
{
    push_word(d, out, WordKind::Function, number)?;
    push_char(out, '(')
}

// Appends parameters, each before a separator.
pub(crate) fn push_parameters<D: Dialect>(
    d: &D,
    out: &mut String,
    parameters: &[Text],
) -> Result<(), OutOfMemory>
    ensures { OnOk result (chars (string_bytes out.new) ≡ chars (string_bytes out.old)
        ++ each_before (D.meaning d.now).list (λ p. p) parameters.now) }
{
    for parameter in parameters {
        push_text(out, parameter.as_str())?;
        push_char(out, d.list())?;
    }
    Ok(())
}
