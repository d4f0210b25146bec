ghost use Rattle.std.specs.Prelude.{◌≡◌, ◌++◌, [], ◌∷◌, chars, length, map, OnOk};
ghost use Rattle.ic_laws.specs.declared.tree.NameMention.{NameMention};
ghost use Rattle.ic_laws.specs.declared.tree.SheetMention.{SheetMention};
ghost use Rattle.ic_laws.specs.declared.tree.Tree.{out-Tree};
ghost use Rattle.ic_pool.specs.Code.{texts, rows_bytes, sheet_text, word_text, constant_text};
ghost use Rattle.ic_pool.specs.Bytes.{all_bytes, joined, number_bytes, text_bytes};

use super::numbers::{bit_of, error_of, high_of, low_of, sign_of, write_numbers};
use crate::Key;
use ic_laws::scan::first_char;
use ic_laws::{Bound, Constant, Items, NameMention, OutOfMemory, SheetMention, Text, Tree};

/// How many characters a text has.
#[tactic(auto, using(std::proofs::lemmas::Str::chars_from_encodes))]
fn count(text: &str) -> u64
    ensures { result ≡ length (chars text.now) }
{
    text.chars().count() as u64
}

/// Writes characters.
fn write_characters(key: &mut Key, text: &str) -> Result<(), OutOfMemory>
    ensures { OnOk result (key.new ≡ key.old ++ joined number_bytes (chars text.now)) }
{
    let mut rest = text;
    while let Some((c, after)) = first_char(rest) {
        key.push(u64::from(c))?;
        rest = after;
    }
    Ok(())
}

/// Writes a text.
pub fn write_text(key: &mut Key, text: &str) -> Result<(), OutOfMemory>
    ensures { OnOk result (key.new ≡ key.old ++ text_bytes (chars text.now)) }
{
    key.push(count(text))?;
    write_characters(key, text)
}

/// Writes the one text of a node.
fn write_one(key: &mut Key, text: &str) -> Result<(), OutOfMemory>
    ensures { OnOk result (key.new ≡ key.old ++ rows_bytes ((chars text.now ∷ []) ∷ [])) }
{
    key.extend(&[1, 1])?;
    write_text(key, text)
}

/// Writes the two texts of a node.
fn write_two(key: &mut Key, first: &str, second: &str) -> Result<(), OutOfMemory>
    ensures { OnOk result (key.new
        ≡ key.old ++ rows_bytes ((chars first.now ∷ chars second.now ∷ []) ∷ [])) }
{
    key.extend(&[1, 2])?;
    write_text(key, first)?;
    write_text(key, second)
}

/// Writes a row of texts.
fn write_row(key: &mut Key, texts: &[Text]) -> Result<(), OutOfMemory>
    ensures { OnOk result (key.new ≡ key.old ++ all_bytes text_bytes texts.now) }
{
    key.push(texts.len() as u64)?;
    for text in texts {
        write_text(key, text.as_str())?;
    }
    Ok(())
}

/// Writes what stands in an array.
fn write_constant(key: &mut Key, constant: &Constant) -> Result<(), OutOfMemory>
    ensures { OnOk result (key.new ≡ key.old ++ text_bytes (constant_text constant.now)) }
{
    match constant {
        Constant::Num { minus, amount } => {
            let units = amount.units();
            let size = units.unsigned_abs();
            write_numbers(
                key,
                &[
                    0,
                    bit_of(*minus),
                    sign_of(units),
                    high_of(size),
                    low_of(size),
                ],
            )
        }
        Constant::Str(text) => {
            let text = text.as_str();
            let Some(more) = count(text).checked_add(1) else {
                return Err(OutOfMemory);
            };
            key.extend(&[more, 1])?;
            write_characters(key, text)
        }
        Constant::Bool(value) => write_numbers(key, &[2, bit_of(*value)]),
        Constant::Err(error) => write_numbers(key, &[3, error_of(*error)]),
    }
}

/// Writes a row of an array.
fn write_constants(key: &mut Key, row: &[Constant]) -> Result<(), OutOfMemory>
    ensures { OnOk result (key.new ≡ key.old ++ all_bytes text_bytes (map constant_text row.now)) }
{
    key.push(row.len() as u64)?;
    for constant in row {
        write_constant(key, constant)?;
    }
    Ok(())
}

/// Writes the rows of an array.
fn write_rows(key: &mut Key, rows: &[Items<Constant>]) -> Result<(), OutOfMemory>
    ensures { OnOk result (key.new ≡ key.old ++ rows_bytes (map (map constant_text) rows.now)) }
{
    key.push(rows.len() as u64)?;
    for row in rows {
        write_constants(key, row.as_slice())?;
    }
    Ok(())
}

/// How a mention is spelled.
fn sheet_spelling(sheet: &SheetMention) -> &str
    ensures { chars result.now ≡ sheet_text sheet.now }
{
    match sheet {
        SheetMention::Own => "",
        SheetMention::Sheet(_) => "",
        SheetMention::Dangling(name) => name.as_ref().as_str(),
    }
}

/// How a word is spelled.
fn spelling(word: &NameMention) -> &str
    ensures { chars result.now ≡ word_text word.now }
{
    match word {
        NameMention::Var(name) => name.as_ref().as_str(),
        NameMention::Name(key) => key.as_ref().name.as_str(),
        NameMention::Dangling(name) => name.as_ref().as_str(),
    }
}

/// Writes the texts of a node.
pub fn write_texts(key: &mut Key, tree: &Bound) -> Result<(), OutOfMemory>
    ensures { OnOk result (key.new ≡ key.old ++ rows_bytes
        (texts (out-Tree SheetMention NameMention tree.now))) }
{
    match tree {
        Tree::Str(text) => write_one(key, text.as_str()),
        Tree::Reference(sheet, _) => write_one(key, sheet_spelling(sheet)),
        Tree::Local(sheet, word) => write_two(key, sheet_spelling(sheet), spelling(word)),
        Tree::Word(word) => write_one(key, spelling(word)),
        Tree::Call(word, _) => write_one(key, spelling(word.as_ref())),
        Tree::Lambda(parameters, _) => {
            key.push(1)?;
            write_row(key, parameters.as_slice())
        }
        Tree::Array(rows) => write_rows(key, rows.as_slice()),
        Tree::Num(_) => key.push(0),
        Tree::Bool(_) => key.push(0),
        Tree::Err(_) => key.push(0),
        Tree::Empty => key.push(0),
        Tree::Paren(_) => key.push(0),
        Tree::Prefix(_, _) => key.push(0),
        Tree::Percent(_) => key.push(0),
        Tree::Spill(_) => key.push(0),
        Tree::Binary(_, _, _) => key.push(0),
        Tree::Fun(_, _) => key.push(0),
        Tree::Let(_, _) => key.push(0),
        Tree::Apply(_, _) => key.push(0),
    }
}
