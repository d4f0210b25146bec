ghost use Rattle.std.specs.Prelude.{◌≡◌, None, chars, option_map, IfOk, IfSome, MatchOption, if◌then◌else◌};
ghost use Rattle.ic_laws.specs.Parse.{parsed};
ghost use Rattle.ic_laws.specs.ReadAs.{read_as};
ghost use Rattle.ic_laws.specs.Reading.{Reads};
ghost use Rattle.ic_laws.specs.Tree as trees;
ghost use Rattle.ic_refs.specs.Formula.{whole_of};
ghost use Rattle.ic_tree.specs.Lexing.{ends_whole};
ghost use Rattle.ic_tree.specs.Typed.{as_typed};

use crate::TokenSource;
use crate::lexer::{Lexer, TextEnd, reference_at};
use crate::reader::parse;
use crate::spelling::{Spelling, spell_with};
use ic_laws::scan::is_nothing;
use ic_laws::{Bound, Dialect, NameKey, OutOfMemory, RefToken, Spelled, Text};
use std::alloc::Global;
use std::marker::Brand;

/// The formula that a text is in a dialect. None where no formula has this text: where it doesn't fall into tokens, or
/// its tokens are those of no formula.
pub fn read<D: Dialect>(alloc: Global, d: &D, text: &str) -> Result<Option<Spelled>, OutOfMemory>
    ensures exact { IfOk result (λ r. r ≡ read_as (D.meaning d.now) (chars text.now)) }
    ensures reads { IfOk result (λ r. IfSome r (λ t. Reads (D.meaning d.now) (chars text.now) t)) }
    ensures none { IfOk result (λ r. MatchOption r
        ((t : trees.Spelled) → Reads (D.meaning d.now) (chars text.now) t → ⊥) (λ t. Unit {0})) }
{
    read_spelled(alloc, d, text)
}

/// The same, without what it means to read.
fn read_spelled<D: Dialect>(
    alloc: Global,
    d: &D,
    text: &str,
) -> Result<Option<Spelled>, OutOfMemory>
    ensures { IfOk result (λ r. r ≡ read_as (D.meaning d.now) (chars text.now)) }
{
    match read_typed(alloc, d, text) {
        Err(e) => Err(e),
        Ok(None) => Ok(None),
        Ok(Some(tree)) => Ok(Some(spell_with(alloc, &AsTyped, &tree)?)),
    }
}

/// The formula that a text is in a dialect, in which each sheet and each word dangles as it was typed: what `settle` binds. None
/// where no formula has this text.
pub fn read_typed<D: Dialect>(
    alloc: Global,
    d: &D,
    text: &str,
) -> Result<Option<Bound>, OutOfMemory>
    ensures { IfOk result (λ r. option_map as_typed r
        ≡ read_as (D.meaning d.now) (chars text.now)) }
{
    read_text::<D, Brand>(alloc, d, &Unread { text })
}

/// The reference that a whole text is in a dialect. None exactly where it is none, also where blanks stand around it.
pub fn read_reference<D: Dialect>(
    alloc: Global,
    d: &D,
    text: &str,
) -> Result<Option<RefToken>, OutOfMemory>
    ensures { IfOk result (λ r. r ≡ whole_of ((D.meaning d.now).read_ref (chars text.now))) }
{
    let Some((reference, rest)) = reference_at(alloc, d, text)? else {
        return Ok(None);
    };
    if is_nothing(rest) {
        return Ok(Some(reference));
    }
    Ok(None)
}

/// How a formula is written that was only read: what it mentions stands in it as it was typed.
#[derive(Drop)]
struct AsTyped;

impl Spelling for AsTyped {
    ghost use Rattle.ic_tree.specs.Typed.{no_text, own_name};

    ghost sheet_text = { λ s. no_text };

    ghost key_text = { λ s. own_name };

    fn sheet_text(&self, alloc: Global, _id: u32) -> Result<Text, OutOfMemory> {
        Text::from_str(alloc, "")
    }

    fn key_text(&self, alloc: Global, key: &NameKey) -> Result<Text, OutOfMemory> {
        Text::from_str(alloc, key.name.as_str())
    }
}

/// A text that is still to be read.
#[derive(Drop)]
struct Unread<'t> {
    text: &'t str,
}

/// The same, where it is known of the text whether it falls into tokens.
fn read_text<D: Dialect, K: TextEnd>(
    alloc: Global,
    d: &D,
    unread: &Unread,
) -> Result<Option<Bound>, OutOfMemory>
    requires { K.whole ≡ ends_whole (D.meaning d.now) (chars unread.now.text.now) }
    ensures { IfOk result (λ r. option_map as_typed r
        ≡ read_as (D.meaning d.now) (chars unread.now.text.now)) }
{
    match Lexer::<D, K>::new(alloc, d, unread.text) {
        Err(e) => Err(e),
        Ok(mut tokens) => read_tokens(alloc, d, &mut tokens),
    }
}

/// The formula of the tokens, where they are all of the text.
fn read_tokens<'t, D: Dialect, K: TextEnd>(
    alloc: Global,
    d: &D,
    tokens: &mut Lexer<'t, D, K>,
) -> Result<Option<Bound>, OutOfMemory>
    ensures { IfOk result (λ r. option_map as_typed r ≡ (if K.whole then parsed (D.meaning d.now)
        (⟦<Lexer<'t, D, K> as TokenSource>⟧.left tokens.old) else None)) }
{
    match parse(alloc, d, tokens) {
        Err(e) => Err(e),
        Ok(None) => Ok(None),
        Ok(Some(tree)) => {
            if tokens.is_at_end() {
                Ok(Some(tree))
            } else {
                Ok(None)
            }
        }
    }
}
