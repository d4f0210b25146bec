ghost use Rattle.std.specs.Prelude.{◌≡◌, ◌+◌, ◌++◌, [], ◌∷◌, OnOk};
ghost use Rattle.ic_laws.specs.declared.tree.NameMention.{NameMention};
ghost use Rattle.ic_laws.specs.declared.tree.SheetMention.{SheetMention};
ghost use Rattle.ic_laws.specs.declared.tree.Tree.{out-Tree};
ghost use Rattle.ic_pool.specs.Code.{pair_code, tree_code, numbers, pairs_of, trees_of, place_numbers, part_numbers, sheet_kind, sheet_id, word_numbers};
ghost use Rattle.ic_pool.specs.Bytes.{all_bytes, joined, number_bytes, text_bytes};

use super::numbers::{
    binary_of, bit_of, error_of, high_of, id_of, low_of, mention_of, part_of, prefix_of, sign_of,
    write_numbers,
};
use super::texts::{write_text, write_texts};
use crate::Key;
use ic_laws::{Bound, LetPair, NameMention, OutOfMemory, Place, RefPart, SheetMention, Tree};

/// Writes two corners.
fn write_parts(key: &mut Key, p: RefPart, q: RefPart) -> Result<(), OutOfMemory>
    ensures { OnOk result (key.new ≡ key.old ++ joined number_bytes
        (part_numbers p ++ part_numbers q)) }
{
    key.extend(&part_of(p))?;
    key.extend(&part_of(q))
}

/// Writes a reference's numbers.
fn write_reference(key: &mut Key, sheet: &SheetMention, place: Place) -> Result<(), OutOfMemory>
    ensures { OnOk result (key.new ≡ key.old ++ text_bytes
        (4 ∷ sheet_kind sheet.now ∷ sheet_id sheet.now ∷ place_numbers place)) }
{
    let (mention, id) = (mention_of(sheet), id_of(sheet));
    match place {
        Place::Cell(p) => {
            key.extend(&[10, 4, mention, id, 0])?;
            key.extend(&part_of(p))
        }
        Place::Range(p, q) => {
            key.extend(&[16, 4, mention, id, 1])?;
            write_parts(key, p, q)
        }
    }
}

/// Writes a word's numbers behind this one.
fn write_word(key: &mut Key, tag: u64, word: &NameMention) -> Result<(), OutOfMemory>
    ensures { OnOk result (key.new ≡ key.old ++ text_bytes (tag ∷ word_numbers word.now)) }
{
    match word {
        NameMention::Var(_) => write_numbers(key, &[tag, 0]),
        NameMention::Name(k) => match k.as_ref().scope {
            None => write_numbers(key, &[tag, 1]),
            Some(id) => write_numbers(key, &[tag, 1, u64::from(id)]),
        },
        NameMention::Dangling(_) => write_numbers(key, &[tag, 2]),
    }
}

/// Writes the numbers of a word with its sheet.
fn write_local(key: &mut Key, sheet: &SheetMention, word: &NameMention) -> Result<(), OutOfMemory>
    ensures { OnOk result (key.new ≡ key.old ++ text_bytes
        (18 ∷ sheet_kind sheet.now ∷ sheet_id sheet.now ∷ word_numbers word.now)) }
{
    let (mention, id) = (mention_of(sheet), id_of(sheet));
    match word {
        NameMention::Var(_) => write_numbers(key, &[18, mention, id, 0]),
        NameMention::Name(k) => match k.as_ref().scope {
            None => write_numbers(key, &[18, mention, id, 1]),
            Some(scope) => write_numbers(key, &[18, mention, id, 1, u64::from(scope)]),
        },
        NameMention::Dangling(_) => write_numbers(key, &[18, mention, id, 2]),
    }
}

/// Writes the numbers of a node.
fn write_node(key: &mut Key, tree: &Bound) -> Result<(), OutOfMemory>
    ensures { OnOk result (key.new ≡ key.old ++ text_bytes
        (numbers (out-Tree SheetMention NameMention tree.now))) }
{
    match tree {
        Tree::Num(amount) => {
            let units = amount.units();
            let size = units.unsigned_abs();
            write_numbers(key, &[0, sign_of(units), high_of(size), low_of(size)])
        }
        Tree::Str(_) => write_numbers(key, &[1]),
        Tree::Bool(value) => write_numbers(key, &[2, bit_of(*value)]),
        Tree::Err(error) => write_numbers(key, &[3, error_of(*error)]),
        Tree::Reference(sheet, place) => write_reference(key, sheet, place.place()),
        Tree::Local(sheet, word) => write_local(key, sheet, word),
        Tree::Word(word) => write_word(key, 5, word),
        Tree::Empty => write_numbers(key, &[6]),
        Tree::Paren(_) => write_numbers(key, &[7]),
        Tree::Prefix(sign, _) => write_numbers(key, &[8, prefix_of(*sign)]),
        Tree::Percent(_) => write_numbers(key, &[9]),
        Tree::Spill(_) => write_numbers(key, &[10]),
        Tree::Binary(sign, _, _) => write_numbers(key, &[11, binary_of(*sign)]),
        Tree::Fun(number, _) => write_numbers(key, &[12, *number as u64]),
        Tree::Call(word, _) => write_word(key, 13, word.as_ref()),
        Tree::Let(_, _) => write_numbers(key, &[14]),
        Tree::Lambda(_, _) => write_numbers(key, &[15]),
        Tree::Apply(_, _) => write_numbers(key, &[16]),
        Tree::Array(_) => write_numbers(key, &[17]),
    }
}

/// Writes a node, and what stands below it.
#[cycle(writing)]
pub fn write_tree(key: &mut Key, tree: &Bound) -> Result<(), OutOfMemory>
    ensures { OnOk result (key.new ≡ key.old ++ tree_code tree.now) }
{
    write_node(key, tree)?;
    write_texts(key, tree)?;
    write_children(key, tree)
}

/// Writes what stands below a node: its pairs, and its formulas.
#[cycle(writing)]
fn write_children(key: &mut Key, tree: &Bound) -> Result<(), OutOfMemory>
    ensures { OnOk result (key.new ≡ key.old ++ (all_bytes pair_code
        (pairs_of (out-Tree SheetMention NameMention tree.now))
        ++ all_bytes tree_code (trees_of (out-Tree SheetMention NameMention tree.now)))) }
{
    match tree {
        Tree::Paren(x) => write_below(key, x.as_ref()),
        Tree::Prefix(_, x) => write_below(key, x.as_ref()),
        Tree::Percent(x) => write_below(key, x.as_ref()),
        Tree::Spill(x) => write_below(key, x.as_ref()),
        Tree::Lambda(_, x) => write_below(key, x.as_ref()),
        Tree::Binary(_, a, b) => {
            key.extend(&[0, 2])?;
            write_tree(key, a.as_ref())?;
            write_tree(key, b.as_ref())
        }
        Tree::Fun(_, trees) => write_all(key, trees.as_slice()),
        Tree::Call(_, trees) => write_all(key, trees.as_slice()),
        Tree::Let(pairs, body) => {
            write_pairs(key, pairs.as_slice())?;
            write_body(key, body.as_ref())
        }
        Tree::Apply(x, trees) => {
            let trees = trees.as_slice();
            key.extend(&[0, (trees.len() + 1) as u64])?;
            write_tree(key, x.as_ref())?;
            write_each(key, trees)
        }
        Tree::Num(_) => write_nothing(key),
        Tree::Str(_) => write_nothing(key),
        Tree::Bool(_) => write_nothing(key),
        Tree::Err(_) => write_nothing(key),
        Tree::Reference(_, _) => write_nothing(key),
        Tree::Local(_, _) => write_nothing(key),
        Tree::Word(_) => write_nothing(key),
        Tree::Empty => write_nothing(key),
        Tree::Array(_) => write_nothing(key),
    }
}

/// Writes that nothing stands below.
fn write_nothing(key: &mut Key) -> Result<(), OutOfMemory>
    ensures { OnOk result (key.new ≡ key.old ++ (all_bytes pair_code []
        ++ all_bytes tree_code [])) }
{
    key.extend(&[0, 0])
}

/// Writes one formula that stands below, behind its count.
#[cycle(writing)]
fn write_body(key: &mut Key, tree: &Bound) -> Result<(), OutOfMemory>
    ensures { OnOk result (key.new ≡ key.old ++ all_bytes tree_code (tree.now ∷ [])) }
{
    key.push(1)?;
    write_tree(key, tree)
}

/// Writes one formula that stands below, and no pairs.
#[cycle(writing)]
fn write_below(key: &mut Key, tree: &Bound) -> Result<(), OutOfMemory>
    ensures { OnOk result (key.new ≡ key.old ++ (all_bytes pair_code []
        ++ all_bytes tree_code (tree.now ∷ []))) }
{
    key.extend(&[0, 1])?;
    write_tree(key, tree)
}

/// Writes no pairs, and formulas behind their count.
#[cycle(writing)]
fn write_all(key: &mut Key, trees: &[Bound]) -> Result<(), OutOfMemory>
    ensures { OnOk result (key.new ≡ key.old ++ (all_bytes pair_code []
        ++ all_bytes tree_code trees.now)) }
{
    key.extend(&[0, trees.len() as u64])?;
    write_each(key, trees)
}

/// Writes formulas one after another.
#[cycle(writing)]
fn write_each(key: &mut Key, trees: &[Bound]) -> Result<(), OutOfMemory>
    ensures { OnOk result (key.new ≡ key.old ++ joined tree_code trees.now) }
{
    for tree in trees {
        write_tree(key, tree)?;
    }
    Ok(())
}

/// Writes pairs behind their count.
#[cycle(writing)]
fn write_pairs(
    key: &mut Key,
    pairs: &[LetPair<SheetMention, NameMention>],
) -> Result<(), OutOfMemory>
    ensures { OnOk result (key.new ≡ key.old ++ all_bytes pair_code pairs.now) }
{
    key.push(pairs.len() as u64)?;
    for pair in pairs {
        write_text(key, pair.variable.as_str())?;
        write_tree(key, &pair.value)?;
    }
    Ok(())
}
