ghost use Rattle.std.specs.Prelude.{◌≡◌, ◌++◌, chars, string_bytes, OnOk};
ghost use Rattle.ic_laws.specs.Dialect.{boolean_number, error_number, word_text};
ghost use Rattle.ic_laws.specs.Token.{string_text};
ghost use Rattle.ic_laws.specs.declared.dialect.WordKind.TheVariants as kinds;
ghost use Rattle.ic_tree.specs.Printed.{all_between, constant_text, doubled, doubled_char, row_separator, row_text, separator_before};

use crate::number::error_number;
use ic_laws::scan::{first_char, push_char, push_text};
use ic_laws::{Constant, Dialect, Error, Items, OutOfMemory, WordKind, push_amount};

/// Appends what stands before the text of this number among several: nothing before the first one, number 0.
pub fn push_separator(out: &mut String, separator: char, n: usize) -> Result<(), OutOfMemory>
    ensures { OnOk result (chars (string_bytes out.new) ≡ chars (string_bytes out.old)
        ++ separator_before separator n) }
{
    if n == 0 {
        Ok(())
    } else {
        push_char(out, separator)
    }
}

/// Appends a text between quotes, each quote in it doubled.
pub fn push_string(out: &mut String, text: &str) -> Result<(), OutOfMemory>
    ensures { OnOk result (chars (string_bytes out.new) ≡ chars (string_bytes out.old)
        ++ string_text (chars text.now)) }
{
    push_char(out, '"')?;
    push_doubled(out, text)?;
    push_char(out, '"')
}

// Appends a text with each quote in it doubled.
fn push_doubled(out: &mut String, text: &str) -> Result<(), OutOfMemory>
    ensures { OnOk result (chars (string_bytes out.new) ≡ chars (string_bytes out.old)
        ++ doubled (chars text.now)) }
{
    let mut rest = text;
    while let Some((c, after)) = first_char(rest) {
        push_char_doubled(out, c)?;
        rest = after;
    }
    Ok(())
}

// Appends a character, a quote twice.
fn push_char_doubled(out: &mut String, c: char) -> Result<(), OutOfMemory>
    ensures { OnOk result (chars (string_bytes out.new) ≡ chars (string_bytes out.old)
        ++ doubled_char c) }
{
    if c == '"' {
        push_char(out, '"')?;
    }
    push_char(out, c)
}

/// Appends a word of the dialect; nothing where it has none of this number.
pub fn push_word<D: Dialect>(
    d: &D,
    out: &mut String,
    kind: WordKind,
    number: usize,
) -> Result<(), OutOfMemory>
    ensures { OnOk result (chars (string_bytes out.new) ≡ chars (string_bytes out.old)
        ++ word_text (D.meaning d.now) kind number) }
{
    match d.word(kind, number) {
        Some(word) => push_text(out, word),
        None => Ok(()),
    }
}

/// Appends a boolean.
pub fn push_boolean<D: Dialect>(d: &D, out: &mut String, value: bool) -> Result<(), OutOfMemory>
    ensures { OnOk result (chars (string_bytes out.new) ≡ chars (string_bytes out.old)
        ++ word_text (D.meaning d.now) kinds.Boolean (boolean_number value)) }
{
    push_word(d, out, WordKind::Boolean, if value { 0 } else { 1 })
}

/// Appends an error.
pub fn push_error<D: Dialect>(d: &D, out: &mut String, error: Error) -> Result<(), OutOfMemory>
    ensures { OnOk result (chars (string_bytes out.new) ≡ chars (string_bytes out.old)
        ++ word_text (D.meaning d.now) kinds.Error (error_number error)) }
{
    push_word(d, out, WordKind::Error, error_number(error))
}

// Appends a constant.
fn push_constant<D: Dialect>(
    d: &D,
    out: &mut String,
    constant: &Constant,
) -> Result<(), OutOfMemory>
    ensures { OnOk result (chars (string_bytes out.new) ≡ chars (string_bytes out.old)
        ++ constant_text (D.meaning d.now) constant.now) }
{
    match constant {
        Constant::Num { minus, amount } => {
            if *minus {
                push_char(out, '-')?;
            }
            push_amount(out, *amount, d.decimal())
        }
        Constant::Str(text) => push_string(out, text.as_str()),
        Constant::Bool(value) => push_boolean(d, out, *value),
        Constant::Err(error) => push_error(d, out, *error),
    }
}

// Appends a row of an array.
fn push_row<D: Dialect>(d: &D, out: &mut String, row: &[Constant]) -> Result<(), OutOfMemory>
    ensures { OnOk result (chars (string_bytes out.new) ≡ chars (string_bytes out.old)
        ++ row_text (D.meaning d.now) row.now) }
{
    for (n, constant) in row.iter().enumerate() {
        push_separator(out, d.list(), n)?;
        push_constant(d, out, constant)?;
    }
    Ok(())
}

// What stands between the rows of an array.
fn row_separator<D: Dialect>(d: &D) -> char
    ensures { result ≡ row_separator (D.meaning d.now) }
{
    if d.list() == ',' { ';' } else { '/' }
}

/// Appends the rows of an array.
pub fn push_rows<D: Dialect>(
    d: &D,
    out: &mut String,
    rows: &[Items<Constant>],
) -> Result<(), OutOfMemory>
    ensures { OnOk result (chars (string_bytes out.new) ≡ chars (string_bytes out.old)
        ++ all_between (row_separator (D.meaning d.now)) (row_text (D.meaning d.now)) rows.now) }
{
    for (n, row) in rows.iter().enumerate() {
        push_separator(out, row_separator(d), n)?;
        push_row(d, out, row.as_slice())?;
    }
    Ok(())
}
