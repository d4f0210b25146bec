//! The keys by which styles are found.
ghost use Rattle.std.specs.Prelude.{◌≡◌, ◌++◌, IfOk, OnOk, chars};
ghost use Rattle.ic_cells.specs.Key.{code, fill_code, flag, text_code};

use crate::{Color, Style};
use ic_laws::OutOfMemory;
use ic_laws::scan::first_char;
use std::alloc::Global;
use std::cmp::Ordering;
use std::marker::Model;

/// The fields of a style as a list of numbers, from which the style can be read back. Contracts see the list.
#[derive(Drop)]
pub struct Key {
    inner: Vec<u32>,
}

impl Model for Key {
    ghost use Rattle.std.specs.Prelude.{List, ℕ};

    ghost Value = { List ℕ };

    ghost view = { λ k. k.inner.items };
}

impl Key {
    /// The key of a style.
    #[tactic(auto, unfolding(crate::specs::Key::code))]
    pub fn new(alloc: Global, style: &Style) -> Result<Key, OutOfMemory>
        ensures { IfOk result (λ key. key ≡ code style.now) }
    {
        let mut inner = Vec::new(alloc);
        inner.push(flag(style.quote_prefix))?;
        inner.push(flag(style.bold))?;
        push_text(&mut inner, style.num_fmt.as_str())?;
        push_fill(&mut inner, &style.fill)?;
        Ok(Key { inner })
    }
}

fn flag(is_set: bool) -> u32
    ensures { result ≡ flag is_set }
{
    if is_set { 1 } else { 0 }
}

/// Appends each character, one higher, and a 0 at the end.
fn push_text(key: &mut Vec<u32>, text: &str) -> Result<(), OutOfMemory>
    ensures { OnOk result (key.new.items ≡ key.old.items ++ text_code (chars text.now)) }
{
    let mut rest = text;
    while let Some((c, after)) = first_char(rest) {
        key.push(u32::from(c) + 1)?;
        rest = after;
    }
    key.push(0)?;
    Ok(())
}

/// Appends nothing for no fill, and else a 1 and the text of the colour.
fn push_fill(key: &mut Vec<u32>, fill: &Color) -> Result<(), OutOfMemory>
    ensures { OnOk result (key.new.items ≡ key.old.items ++ fill_code fill.now) }
{
    if let Color::Rgb(text) = fill {
        key.push(1)?;
        push_text(key, text.as_str())?;
    }
    Ok(())
}

impl PartialEq for Key {
    ghost use Rattle.std.specs.Prelude.{bytes_eq};
    ghost use Rattle.std.specs.Cmp.Rules.{comparing};

    ghost eq = { bytes_eq };

    ghost laws = { Prim.search comparing };

    fn eq(&self, other: &Key) -> bool {
        self.inner == other.inner
    }
}

impl Eq for Key {
    ghost use Rattle.std.specs.Cmp.Rules.{comparing};

    ghost laws = { Prim.search comparing };
}

impl PartialOrd for Key {
    ghost use Rattle.std.proofs.Common.{rules};
    ghost use Rattle.std.specs.Cmp.Lexicographic.{slice_cmp};
    ghost use Rattle.std.specs.Cmp.Rules.{comparing};
    ghost use Rattle.std.specs.Ordering.{nat_cmp, as_partial_cmp};

    ghost partial_cmp = { as_partial_cmp (slice_cmp nat_cmp) };

    ghost laws = { Prim.search (comparing, rules) };

    fn partial_cmp(&self, other: &Key) -> Option<Ordering> {
        Some(self.cmp(other))
    }
}

impl Ord for Key {
    ghost use Rattle.std.proofs.Common.{rules};
    ghost use Rattle.std.specs.Cmp.Lexicographic.{slice_cmp};
    ghost use Rattle.std.specs.Cmp.Rules.{comparing};
    ghost use Rattle.std.specs.Ordering.{nat_cmp};

    ghost cmp = { slice_cmp nat_cmp };

    ghost total = { Prim.search (comparing, rules) };

    ghost matches_partial_cmp = { Prim.search (comparing, rules) };

    ghost matches_eq = { Prim.search (comparing, rules) };

    fn cmp(&self, other: &Key) -> Ordering {
        self.inner.cmp(&other.inner)
    }
}
