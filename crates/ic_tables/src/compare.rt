//! Folding a text character by character, against a text that is folded already.
ghost use Rattle.std.specs.Prelude.{◌≡◌, ◌==◌, ◌&&◌, nat_lt, not, ◌∷◌, [], ◌++◌, chars, MatchOption, MatchResult};
ghost use Rattle.std.specs.Char.{to_ascii_lowercase};
ghost use Rattle.std.specs.Cmp.Lexicographic.{slice_cmp};
ghost use Rattle.std.specs.Ordering.{nat_cmp};
ghost use Rattle.ucd_case.specs.CaseFolding.{full_fold};
ghost use Rattle.ic_laws.specs.Name.{fold};
ghost use Rattle.ic_tables.specs.Order.{ComparesBy, FoldsFront, FoldsNoFront};

use ic_laws::scan::first_char;
use std::cmp::Ordering;
use ucd_case::full_folding;

/// How the folding of a text compares with a folded text. ASCII characters at the front of both are told by their bytes.
pub fn compare_folded(text: &str, folded: &str) -> Ordering
    ensures { result ≡ slice_cmp nat_cmp (fold (chars text.now)) (chars folded.now) }
{
    let bytes = text.as_bytes();
    let others = folded.as_bytes();
    let mut at = 0;
    while at < bytes.len() && at < others.len() && is_folding_byte(bytes[at], others[at]) {
        at += 1;
    }
    let (_, front) = text.split_at(at);
    let (_, whole) = folded.split_at(at);
    compare_fronts(front, whole)
}

/// The same, where the first characters are told by their bytes if both are ASCII and differ.
fn compare_fronts(text: &str, folded: &str) -> Ordering
    ensures { result ≡ slice_cmp nat_cmp (fold (chars text.now)) (chars folded.now) }
{
    let bytes = text.as_bytes();
    let others = folded.as_bytes();
    if !bytes.is_empty() && !others.is_empty() && is_other_byte(bytes[0], others[0]) {
        return bytes[0].to_ascii_lowercase().cmp(&others[0]);
    }
    compare_characters(text, folded)
}

/// Whether the first is an ASCII character and the second its folding.
fn is_folding_byte(byte: u8, folded: u8) -> bool
    ensures { result ≡ (nat_lt byte 128 && to_ascii_lowercase byte == folded) }
{
    byte.is_ascii() && byte.to_ascii_lowercase() == folded
}

/// Whether both are ASCII characters and the second isn't the folding of the first.
fn is_other_byte(byte: u8, folded: u8) -> bool
    ensures { result ≡ (nat_lt byte 128 && nat_lt folded 128
        && not (to_ascii_lowercase byte == folded)) }
{
    byte.is_ascii() && folded.is_ascii() && byte.to_ascii_lowercase() != folded
}

/// How the folding of a text compares with a folded text, character by character.
#[tactic(auto, using(crate::proofs::CompareLemmas::compare_steps))]
fn compare_characters(text: &str, folded: &str) -> Ordering
    ensures { result ≡ slice_cmp nat_cmp (fold (chars text.now)) (chars folded.now) }
{
    let mut front = text;
    let mut whole = folded;
    while let Some((c, rest)) = first_char(front) {
        match past_folding(c, whole) {
            Ok(after) => {
                front = rest;
                whole = after;
            }
            Err(order) => return order,
        }
    }
    match first_char(whole) {
        None => Ordering::Equal,
        Some(_) => Ordering::Less,
    }
}

/// What stands in a text after the front that folds to this, None where no front does.
pub fn past_folded<'t>(text: &'t str, folded: &str) -> Option<&'t str>
    ensures { MatchOption result (FoldsNoFront (chars folded.now) (chars text.now))
        (λ rest. FoldsFront (chars folded.now) (chars text.now) (chars rest.now)) }
{
    let mut rest = text;
    let mut whole = folded;
    'folding: while let Some(_) = first_char(whole) {
        let Some((c, after)) = first_char(rest) else {
            return None;
        };
        match past_folding(c, whole) {
            Ok(left) => {
                rest = after;
                whole = left;
            }
            Err(_) => return None,
        }
    }
    Some(rest)
}

/// What stands in a folded text after the folding of a character, or how the two compare. The folding of an ASCII
/// character is its lower case.
#[tactic(auto, using(crate::proofs::CompareLemmas::fold_steps))]
fn past_folding(c: char, folded: &str) -> Result<&str, Ordering>
    ensures { MatchResult result (λ rest. chars folded.now ≡ full_fold c ++ chars rest.now)
        (ComparesBy (full_fold c) (chars folded.now)) }
{
    if c.is_ascii() {
        return past_char(c.to_ascii_lowercase(), folded);
    }
    match full_folding(c) {
        [] => past_char(c, folded),
        front => past_chars(front, folded),
    }
}

/// What stands in a text after these characters, or how they compare with it.
#[tactic(auto, using(crate::proofs::CompareLemmas::past_steps))]
fn past_chars<'t>(front: &[char], text: &'t str) -> Result<&'t str, Ordering>
    ensures { MatchResult result (λ rest. chars text.now ≡ front.now ++ chars rest.now)
        (ComparesBy front.now (chars text.now)) }
{
    let mut rest = text;
    for c in front {
        match past_char(*c, rest) {
            Ok(after) => rest = after,
            Err(order) => return Err(order),
        }
    }
    Ok(rest)
}

/// What stands in a text after this character, or how it compares with the text.
fn past_char(c: char, text: &str) -> Result<&str, Ordering>
    ensures { MatchResult result (λ rest. chars text.now ≡ (c ∷ []) ++ chars rest.now)
        (ComparesBy (c ∷ []) (chars text.now)) }
{
    match first_char(text) {
        None => Err(Ordering::Greater),
        Some((d, rest)) => {
            if c == d {
                Ok(rest)
            } else if c < d {
                Err(Ordering::Less)
            } else {
                Err(Ordering::Greater)
            }
        }
    }
}
