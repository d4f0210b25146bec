ghost use Rattle.std.specs.Prelude.{◌≡◌, List, IfOk, Some, ◌&&◌, option_map};
ghost use Rattle.ic_laws.specs.Name.{is_identifier, is_sheet_name, is_variable};
ghost use Rattle.ic_laws.specs.Parse.{made_if};
ghost use Rattle.ic_laws.specs.declared.tree.Tree.TheOpen as one;
ghost use Rattle.ic_laws.specs.Token as tokens;
ghost use Rattle.ic_laws.specs.Tree.{is_called_name as called_name};
ghost use Rattle.ic_tree.specs.Tokens.{on_own_sheet, on_sheet, token_of};
ghost use Rattle.ic_tree.specs.Turned.{leaf, reference_leaf};

use crate::near::NearPlace;
use crate::{LocalWord, Measured, Token};
use ic_laws::{Boxed, NameMention, OutOfMemory, SheetMention, Text, Tree, agree};
use ic_refs::{is_valid_a1_identifier, is_valid_identifier, is_valid_sheet_name};
use std::alloc::Global;

/// Whether it is a variable.
pub fn is_variable(name: &Text) -> bool
    ensures { result ≡ is_variable name.now }
{
    is_valid_a1_identifier(name.as_str())
}

/// Whether a name may be called: it is a variable other than LET and LAMBDA.
#[tactic(auto, using(ic_refs::proofs::NameLemmas::literals))]
pub fn is_called_name(name: &Text) -> bool
    ensures { result ≡ called_name name.now }
{
    let name = name.as_str();
    is_valid_a1_identifier(name) && !agree(name, "LET") && !agree(name, "LAMBDA")
}

/// The leaf that a token is, where it is what it may be and a tree may be so high.
#[tactic(auto, unfolding(crate::specs::Turned::leaf))]
pub fn read_leaf(alloc: Global, most: usize, token: Token) -> Result<Option<Measured>, OutOfMemory>
    ensures { IfOk result (λ r. (rest : List tokens.Token) → option_map (λ t. (t, rest)) r
        ≡ leaf most (token_of token) rest) }
{
    match token {
        Token::Num(amount) => {
            if amount.units() < 0 {
                return Ok(None);
            }
            Ok(Measured::leaf(alloc, Tree::Num(amount), most)?)
        }
        Token::Str(text) => Ok(Measured::leaf(alloc, Tree::Str(text), most)?),
        Token::Boolean(value) => Ok(Measured::leaf(alloc, Tree::Bool(value), most)?),
        Token::Err(error) => Ok(Measured::leaf(alloc, Tree::Err(error), most)?),
        Token::Ref(place) => Ok(read_here(alloc, most, place)?),
        Token::SheetRef(sheet, place) => Ok(read_on_sheet(alloc, most, sheet, place)?),
        Token::Local(local) => Ok(read_local(alloc, most, Box::into_inner(local))?),
        Token::Word(text) => {
            if !is_variable(&text) {
                return Ok(None);
            }
            let word = NameMention::Dangling(Boxed::new(alloc, text)?);
            Ok(Measured::leaf(alloc, Tree::Word(word), most)?)
        }
        _ => Ok(None),
    }
}

/// A word with its sheet as a leaf, where both are what they may be.
fn read_local(alloc: Global, most: usize, local: LocalWord) -> Result<Option<Measured>, OutOfMemory>
    ensures { IfOk result (λ r. (rest : List tokens.Token) → option_map (λ t. (t, rest)) r
        ≡ made_if (is_sheet_name local.sheet && is_identifier local.word) most
        (one.Local (Some local.sheet) local.word) rest) }
{
    let LocalWord { sheet, word } = local;
    if !is_valid_sheet_name(sheet.as_str()) || !is_valid_identifier(word.as_str()) {
        return Ok(None);
    }
    let sheet = SheetMention::Dangling(Boxed::new(alloc, sheet)?);
    let word = NameMention::Dangling(Boxed::new(alloc, word)?);
    Ok(Measured::leaf(alloc, Tree::Local(sheet, word), most)?)
}

/// A reference without a sheet as a leaf.
fn read_here(alloc: Global, most: usize, place: NearPlace) -> Result<Option<Measured>, OutOfMemory>
    ensures { IfOk result (λ r. (rest : List tokens.Token) → option_map (λ t. (t, rest)) r
        ≡ reference_leaf most (on_own_sheet place.place) rest) }
{
    Ok(Measured::leaf(
        alloc,
        Tree::Reference(SheetMention::Own, place.packed()),
        most,
    )?)
}

/// A reference with its sheet as a leaf, where the sheet is a name.
fn read_on_sheet(
    alloc: Global,
    most: usize,
    sheet: Text,
    place: NearPlace,
) -> Result<Option<Measured>, OutOfMemory>
    ensures { IfOk result (λ r. (rest : List tokens.Token) → option_map (λ t. (t, rest)) r
        ≡ reference_leaf most (on_sheet sheet place.place) rest) }
{
    if !is_valid_sheet_name(sheet.as_str()) {
        return Ok(None);
    }
    let sheet = SheetMention::Dangling(Boxed::new(alloc, sheet)?);
    let tree = Tree::Reference(sheet, place.packed());
    Ok(Measured::leaf(alloc, tree, most)?)
}
