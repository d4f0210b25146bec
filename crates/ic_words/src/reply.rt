//! Replies, and the pieces of them.
ghost use Rattle.std.specs.Prelude.{◌≡◌, ◌+◌, ◌*◌, ◌++◌, ◌≤◌, ◌∷◌, [], Ok, Err, IfOk, OnErr, OnOk, chars, codes, encode_utf8_all, length, string_bytes, string_capacity, string_len, true};
ghost use lib.Utf8.{scalars};
ghost use Rattle.std.specs.Fmt.{decimal};
ghost use Rattle.ic_laws.specs.Character.{line_feed};
ghost use Rattle.ic_laws.specs.Lines.{escape_of, escaped};
ghost use Rattle.ic_machine.specs.Refusal.{Refusal, refusal_name};
ghost use Rattle.ic_machine.specs.Reply.{AmountField, BoolField, ColorField, FlagField, NumberField, PositionField};
ghost use Rattle.ic_machine.specs.Reply.{TextField, color_text, field_text, field_word};
ghost use Rattle.ic_machine.specs.Reply.{position_text, reply_bytes, reply_text};
ghost use Rattle.ic_machine.specs.subjects.Sheets.{named_fields};
ghost use Rattle.ic_words.specs.Reply.{IsLineText, reply_room};

use crate::fields::Fields;
use ic_cells::Color;
use ic_laws::scan::{first_char, push_char};
use ic_laws::{Amount, OutOfMemory, amount_spelling};
use ic_lines::push_escaped;
use itoa::Buffer;

/// The bytes that are enough for a reply without a field, and for one with a sheet's name and index. They are reserved
/// before a command changes a book, so that its reply can't fail.
pub const REPLY_ROOM: usize = 512;

/// The room is 512 bytes.
pub fn law_reply_room()
    ensures { REPLY_ROOM ≡ reply_room }
{}

/// The text with the reply `ok` and the fields of an answer at its end. A reply ends with a line feed. Memory runs out only
/// where the fields take any; the text is gone then.
pub fn ok_reply<T: Fields>(mut reply: String, value: &T) -> Result<String, OutOfMemory>
    requires { string_len reply + reply_room ≤ string_capacity reply }
    ensures ok { IfOk result (λ text. string_bytes text ≡ string_bytes reply ++ reply_bytes
        (Ok (T.fields value.now))) }
    ensures line { IfOk result (λ _. IsLineText (reply_text (Ok (T.fields value.now)))) }
    ensures err { OnErr result (T.memory ≡ true) }
{
    append(&mut reply, "ok");
    value.write(&mut reply)?;
    reply.push_str("\n")?;
    Ok(reply)
}

/// The text with the reply that tells a refusal at its end, by the name of an error.
pub fn error_reply(mut reply: String, name: &str) -> String
    requires room { string_len reply + reply_room ≤ string_capacity reply }
    requires short { length name.now ≤ 32 }
    ensures exact { string_bytes result ≡ string_bytes reply
        ++ (codes "error\t" ++ name.now ++ line_feed ∷ []) }
    ensures refusal { (refusal : Refusal) → name.now ≡ refusal_name refusal → string_bytes result
        ≡ string_bytes reply ++ reply_bytes (Err refusal) }
{
    append(&mut reply, "error\t");
    append(&mut reply, name);
    append(&mut reply, "\n");
    reply
}

/// The text with the reply at its end that tells the name of a sheet and its index from 0. It takes no memory, so it can be
/// written after the book has changed.
pub fn named_reply(mut reply: String, name: &str, index: u32) -> String
    requires room { string_len reply + reply_room ≤ string_capacity reply }
    requires short { length (chars name.now) ≤ 31 }
    ensures exact { string_bytes result ≡ string_bytes reply
        ++ reply_bytes (Ok (named_fields (chars name.now) index)) }
    ensures line { IsLineText (reply_text (Ok (named_fields (chars name.now) index))) }
{
    let mut digits = Buffer::new();
    append(&mut reply, "ok\t");
    append_word(&mut reply, name);
    append(&mut reply, "\t");
    append(&mut reply, digits.format(index));
    append(&mut reply, "\n");
    reply
}

/// Appends a field that is a text: a tab, and the text with its escapes.
pub(crate) fn push_field(reply: &mut String, field: &str) -> Result<(), OutOfMemory>
    ensures ok { OnOk result (chars (string_bytes reply.new) ≡ chars (string_bytes reply.old)
        ++ field_word (TextField (chars field.now))) }
    ensures text { scalars (chars field.now) ≡ true }
{
    push_char(reply, '\t')?;
    push_escaped(reply, field)
}

/// Appends a field that is a number: a tab, and its digits, or a minus where there is none.
pub(crate) fn push_number(reply: &mut String, number: Option<u32>) -> Result<(), OutOfMemory>
    ensures ok { OnOk result (chars (string_bytes reply.new) ≡ chars (string_bytes reply.old)
        ++ field_word (NumberField number)) }
    ensures text { scalars (field_text (NumberField number)) ≡ true }
{
    push_char(reply, '\t')?;
    match number {
        Some(number) => push_digits(reply, number as usize),
        None => push_char(reply, '-'),
    }
}

/// Appends a field that is a number which may be below 0: a tab, and its digits, after a minus where it is below 0.
pub(crate) fn push_position(reply: &mut String, position: i32) -> Result<(), OutOfMemory>
    ensures ok { OnOk result (chars (string_bytes reply.new) ≡ chars (string_bytes reply.old)
        ++ field_word (PositionField position)) }
    ensures text { scalars (field_text (PositionField position)) ≡ true }
{
    push_char(reply, '\t')?;
    push_signed(reply, position)
}

/// Appends a field that is an index: a tab, and its digits.
pub(crate) fn push_index(reply: &mut String, index: usize) -> Result<(), OutOfMemory>
    ensures ok { OnOk result (chars (string_bytes reply.new) ≡ chars (string_bytes reply.old)
        ++ field_word (NumberField (Some index))) }
    ensures text { scalars (field_text (NumberField (Some index))) ≡ true }
{
    push_char(reply, '\t')?;
    push_digits(reply, index)
}

/// Appends a field that is an amount: a tab, and its text with a dot before its decimals.
pub(crate) fn push_amount(reply: &mut String, amount: Amount) -> Result<(), OutOfMemory>
    ensures ok { OnOk result (chars (string_bytes reply.new) ≡ chars (string_bytes reply.old)
        ++ field_word (AmountField amount)) }
    ensures text { OnOk result (scalars (field_text (AmountField amount)) ≡ true) }
{
    let text = amount_spelling(*reply.allocator(), amount, '.')?;
    push_field(reply, text.as_str())
}

/// Appends a field that is `true` or `false`.
#[tactic(auto, unfolding(crate::proofs::Literals::literal))]
pub(crate) fn push_truth(reply: &mut String, truth: bool) -> Result<(), OutOfMemory>
    ensures ok { OnOk result (chars (string_bytes reply.new) ≡ chars (string_bytes reply.old)
        ++ field_word (BoolField truth)) }
    ensures text { scalars (field_text (BoolField truth)) ≡ true }
{
    if truth {
        push_field(reply, "true")
    } else {
        push_field(reply, "false")
    }
}

/// Appends a field that is a flag: `1` where it is set, else `0`.
#[tactic(auto, unfolding(crate::proofs::Literals::literal))]
pub(crate) fn push_flag(reply: &mut String, flag: bool) -> Result<(), OutOfMemory>
    ensures ok { OnOk result (chars (string_bytes reply.new) ≡ chars (string_bytes reply.old)
        ++ field_word (FlagField flag)) }
    ensures text { scalars (field_text (FlagField flag)) ≡ true }
{
    if flag {
        push_field(reply, "1")
    } else {
        push_field(reply, "0")
    }
}

/// Appends a field that is a color: a tab, and its text with escapes, or a minus where there is none.
pub(crate) fn push_color(reply: &mut String, color: &Color) -> Result<(), OutOfMemory>
    ensures ok { OnOk result (chars (string_bytes reply.new) ≡ chars (string_bytes reply.old)
        ++ field_word (ColorField color.now)) }
    ensures text { scalars (field_text (ColorField color.now)) ≡ true }
{
    push_field(reply, color_text(color))
}

/// The text of a color, or `-` for none.
fn color_text(color: &Color) -> &str
    ensures { chars result.now ≡ color_text color.now }
{
    match color {
        Color::None => "-",
        Color::Rgb(text) => text.as_str(),
    }
}

/// Appends the decimal digits of a number, after a minus where it is below 0.
fn push_signed(reply: &mut String, number: i32) -> Result<(), OutOfMemory>
    ensures { OnOk result (chars (string_bytes reply.new) ≡ chars (string_bytes reply.old)
        ++ position_text number) }
{
    write!(reply, "{number}")?;
    Ok(())
}

/// Appends the decimal digits of a number.
fn push_digits(reply: &mut String, number: usize) -> Result<(), OutOfMemory>
    ensures { OnOk result (chars (string_bytes reply.new) ≡ chars (string_bytes reply.old)
        ++ decimal number) }
{
    write!(reply, "{number}")?;
    Ok(())
}

/// Appends a piece for which there is room.
fn append(reply: &mut String, piece: &str)
    requires { string_len reply.old + length piece.now ≤ string_capacity reply.old }
    ensures bytes { string_bytes reply.new ≡ string_bytes reply.old ++ piece.now }
    ensures len { string_len reply.new ≡ string_len reply.old + length piece.now }
    ensures capacity { string_capacity reply.old ≤ string_capacity reply.new }
{
    reply.push_str(piece).unwrap();
}

/// Appends a text as it is written in a word, where there is room for four bytes for each character.
fn append_word(reply: &mut String, text: &str)
    requires { string_len reply.old + 4 * length (chars text.now) ≤ string_capacity reply.old }
    ensures bytes { string_bytes reply.new ≡ string_bytes reply.old
        ++ encode_utf8_all (escaped (chars text.now)) }
    ensures len { string_len reply.new ≤ string_len reply.old + 4 * length (chars text.now) }
    ensures capacity { string_capacity reply.old ≤ string_capacity reply.new }
{
    let mut rest = text;
    while let Some((c, after)) = first_char(rest) {
        append_escape(reply, c);
        rest = after;
    }
}

/// Appends a character as it stands in a word, where there is room for four bytes.
fn append_escape(reply: &mut String, c: char)
    requires { string_len reply.old + 4 ≤ string_capacity reply.old }
    ensures bytes { string_bytes reply.new ≡ string_bytes reply.old
        ++ encode_utf8_all (escape_of c) }
    ensures len { string_len reply.new ≤ string_len reply.old + 4 }
    ensures capacity { string_capacity reply.old ≤ string_capacity reply.new }
{
    match c {
        '\\' => append(reply, "\\\\"),
        '\t' => append(reply, "\\t"),
        '\n' => append(reply, "\\n"),
        '\r' => append(reply, "\\r"),
        _ => reply.push(c).unwrap(),
    }
}
