//! The printer of formulas, whatever their mentions are.
ghost use Rattle.std.specs.Prelude.{◌≡◌, ◌++◌, chars, codes, string_bytes, IfOk, OnOk};
ghost use Rattle.ic_laws.specs.Binding.{spelled};
ghost use Rattle.ic_laws.specs.Reading.{printed};
ghost use Rattle.ic_laws.specs.SheetText.{local_text};
ghost use Rattle.ic_laws.specs.Yield.{sheet_name};
ghost use Rattle.ic_tree.specs.Printed.{each_before, written_arguments, written_pair};

use crate::constant::{push_boolean, push_error, push_rows, push_separator, push_string};
use crate::mentions::{AsSpelled, AtPresent, Mentions};
use crate::printer::{ROOM, push_head, push_parameters, push_prefix, sign_text};
use ic_laws::scan::{push_char, push_text};
use ic_laws::{Bound, Dialect, Finder, LetPair, OutOfMemory, Spelled, Tree, push_amount};
use std::alloc::Global;

/// The canonical text of a formula: its tokens in the spelling of the dialect, without blanks. A reference that the
/// dialect can't spell is the word of `Error::REF`, and a word that it lacks is nothing.
pub fn print<D: Dialect>(alloc: Global, d: &D, tree: &Spelled) -> Result<String, OutOfMemory>
    ensures { IfOk result (λ s. chars (string_bytes s) ≡ printed (D.meaning d.now) tree.now) }
{
    let mut out = String::with_capacity(alloc, ROOM)?;
    push_tree(alloc, d, &AsSpelled, &mut out, tree)?;
    Ok(out)
}

/// A sign, and after it the canonical text of a formula with each sheet and each definition that it mentions in its
/// present spelling. It makes no other tree and no other text on the way.
pub fn print_bound<D: Dialect, N: Finder>(
    alloc: Global,
    d: &D,
    names: &N,
    sign: &str,
    tree: &Bound,
) -> Result<String, OutOfMemory>
    ensures { IfOk result (λ s. chars (string_bytes s) ≡ chars sign.now
        ++ printed (D.meaning d.now) (spelled (N.scene names.now) tree.now)) }
{
    let mut out = String::with_capacity(alloc, ROOM)?;
    push_text(&mut out, sign)?;
    push_tree(alloc, d, &AtPresent { names }, &mut out, tree)?;
    Ok(out)
}

// Appends a word with its sheet, whose name has quotes where it needs them.
fn push_local<S, W, M: Mentions<S, W>>(
    alloc: Global,
    mentions: &M,
    out: &mut String,
    sheet: &S,
    word: &W,
) -> Result<(), OutOfMemory>
    ensures { OnOk result (chars (string_bytes out.new) ≡ chars (string_bytes out.old)
        ++ local_text (sheet_name (M.name_of mentions.now sheet.now))
        (M.text_of mentions.now word.now)) }
{
    mentions.push_sheet(alloc, out, sheet)?;
    push_char(out, '!')?;
    mentions.push_word(out, word)
}

// Appends a called word and the bracket that opens its arguments.
fn push_called<S, W, M: Mentions<S, W>>(
    mentions: &M,
    out: &mut String,
    word: &W,
) -> Result<(), OutOfMemory>
    ensures { OnOk result (chars (string_bytes out.new) ≡ chars (string_bytes out.old)
        ++ (M.text_of mentions.now word.now ++ codes "(")) }
{
    mentions.push_word(out, word)?;
    push_char(out, '(')
}

// Appends a formula.
#[cycle(push)]
fn push_tree<D: Dialect, S, W, M: Mentions<S, W>>(
    alloc: Global,
    d: &D,
    mentions: &M,
    out: &mut String,
    tree: &Tree<S, W>,
) -> Result<(), OutOfMemory>
    ensures { OnOk result (chars (string_bytes out.new) ≡ chars (string_bytes out.old)
        ++ M.written mentions.now (D.meaning d.now) tree.now) }
{
    match tree {
        Tree::Num(amount) => push_amount(out, *amount, d.decimal()),
        Tree::Str(text) => push_string(out, text.as_str()),
        Tree::Bool(value) => push_boolean(d, out, *value),
        Tree::Err(error) => push_error(d, out, *error),
        Tree::Reference(sheet, place) => mentions.push_reference(
            alloc,
            d,
            out,
            sheet,
            place.place(),
        ),
        Tree::Local(sheet, word) => push_local(alloc, mentions, out, sheet, word),
        Tree::Word(word) => mentions.push_word(out, word),
        Tree::Empty => Ok(()),
        Tree::Paren(x) => {
            push_char(out, '(')?;
            push_closed(alloc, d, mentions, out, x.as_ref())
        }
        Tree::Prefix(sign, x) => {
            push_prefix(out, *sign)?;
            push_tree(alloc, d, mentions, out, x.as_ref())
        }
        Tree::Percent(x) => {
            push_tree(alloc, d, mentions, out, x.as_ref())?;
            push_char(out, '%')
        }
        Tree::Spill(x) => {
            push_tree(alloc, d, mentions, out, x.as_ref())?;
            push_char(out, '#')
        }
        Tree::Binary(sign, a, b) => {
            push_tree(alloc, d, mentions, out, a.as_ref())?;
            push_text(out, sign_text(*sign))?;
            push_tree(alloc, d, mentions, out, b.as_ref())
        }
        Tree::Fun(number, arguments) => {
            push_head(d, out, *number)?;
            push_arguments(alloc, d, mentions, out, arguments.as_slice())
        }
        Tree::Call(word, arguments) => {
            push_called(mentions, out, word.as_ref())?;
            push_arguments(alloc, d, mentions, out, arguments.as_slice())
        }
        Tree::Let(pairs, body) => {
            push_head(d, out, d.let_fn())?;
            push_pairs(alloc, d, mentions, out, pairs.as_slice())?;
            push_closed(alloc, d, mentions, out, body.as_ref())
        }
        Tree::Lambda(parameters, body) => {
            push_head(d, out, d.lambda_fn())?;
            push_parameters(d, out, parameters.as_slice())?;
            push_closed(alloc, d, mentions, out, body.as_ref())
        }
        Tree::Apply(x, arguments) => {
            push_tree(alloc, d, mentions, out, x.as_ref())?;
            push_char(out, '(')?;
            push_arguments(alloc, d, mentions, out, arguments.as_slice())
        }
        Tree::Array(rows) => {
            push_char(out, '{')?;
            push_rows(d, out, rows.as_slice())?;
            push_char(out, '}')
        }
    }
}

// Appends a formula and the bracket that closes it.
#[cycle(push)]
fn push_closed<D: Dialect, S, W, M: Mentions<S, W>>(
    alloc: Global,
    d: &D,
    mentions: &M,
    out: &mut String,
    tree: &Tree<S, W>,
) -> Result<(), OutOfMemory>
    ensures { OnOk result (chars (string_bytes out.new) ≡ chars (string_bytes out.old)
        ++ (M.written mentions.now (D.meaning d.now) tree.now ++ codes ")")) }
{
    push_tree(alloc, d, mentions, out, tree)?;
    push_char(out, ')')
}

// Appends arguments and the bracket that closes them.
#[cycle(push)]
fn push_arguments<D: Dialect, S, W, M: Mentions<S, W>>(
    alloc: Global,
    d: &D,
    mentions: &M,
    out: &mut String,
    arguments: &[Tree<S, W>],
) -> Result<(), OutOfMemory>
    ensures { OnOk result (chars (string_bytes out.new) ≡ chars (string_bytes out.old)
        ++ (written_arguments (D.meaning d.now)
        (M.written mentions.now (D.meaning d.now)) arguments.now
        ++ codes ")")) }
{
    for (n, argument) in arguments.iter().enumerate() {
        push_separator(out, d.list(), n)?;
        push_tree(alloc, d, mentions, out, argument)?;
    }
    push_char(out, ')')
}

// Appends the variables of LET with their values, each before a separator.
#[cycle(push)]
fn push_pairs<D: Dialect, S, W, M: Mentions<S, W>>(
    alloc: Global,
    d: &D,
    mentions: &M,
    out: &mut String,
    pairs: &[LetPair<S, W>],
) -> Result<(), OutOfMemory>
    ensures { OnOk result (chars (string_bytes out.new) ≡ chars (string_bytes out.old)
        ++ each_before (D.meaning d.now).list
        (written_pair (D.meaning d.now) (M.written mentions.now (D.meaning d.now))) pairs.now) }
{
    for pair in pairs {
        push_text(out, pair.variable.as_str())?;
        push_char(out, d.list())?;
        push_tree(alloc, d, mentions, out, &pair.value)?;
        push_char(out, d.list())?;
    }
    Ok(())
}
