//! What the words `translate LOCALE LANGUAGE` do: the lines of the source are translated, and what they become is written.
ghost use Rattle.std.specs.Prelude.{◌≡◌, ◌≢◌, ◌⊎◌, ◌↔◌, ◌+◌, ◌++◌, [], ◌<◌, ◌≤◌, ◌^◌, true, Err, Ok, IfOk, IsNone, IsSome, IsSomeAnd, OnOk, chars, flat_map, is_some, length, option_map, string_bytes};
ghost use Rattle.ic_laws.specs.Lines.{escaped, texts_of};
ghost use Rattle.ic_lines.specs.Bytes.{AppendsFront, HasFault, IfTold};
ghost use Rattle.ic_parts.specs.Translated.{why_meant};
ghost use Rattle.ic_parts.specs.Whole.{whole_of};
ghost use Rattle.ic_run.specs.Desk.{run_status, start_refusal, texts};
ghost use Rattle.ic_run.specs.Make.{made_setting};
ghost use Rattle.ic_run.specs.Start.{target};
ghost use Rattle.ic_run.specs.Translate.{AppendsTold, AppendsToldFront, AppendsTranslated, AppendsTranslatedFront, IsDue, due_status, ended_line, switches, target_of, target_refusal, told_bytes, told_cannot, why_name};

use crate::make::written;
use crate::start::english_book;
use crate::translating::{TranslateError, translate};
use ic_book::{Model, Why};
use ic_laws::OutOfMemory;
use ic_laws::scan::{push_char, push_text, same_text};
use ic_lines::{Line, RunError, Sink, Source, push_escaped, read_lines};
use ic_tables::Tables;
use jiff::Timestamp;
use std::alloc::Global;

/// The notation that lines are asked for in: the ids of a locale and a language.
#[derive(Drop)]
pub struct Wanted<'a> {
    locale: &'a str,
    language: &'a str,
}

/// What the words name; None where they aren't `translate`, a locale and a language.
pub fn wanted_named(words: &[String]) -> Option<Wanted<'_>>
    ensures { option_map target result ≡ target_of (texts words.now) }
{
    if words.len() != 3 {
        return None;
    }
    if !same_text(words[0].as_str(), "translate") {
        return None;
    }
    Some(Wanted {
        locale: words[1].as_str(),
        language: words[2].as_str(),
    })
}

/// Translates the lines of a source, from a new book in en, en and UTC, and writes what they become; or which line can't be
/// translated, and why. Answers the status: 0, 2 where the tables lack the locale, the language, `en` or UTC, 3 and 5 where the
/// source had a fault or gave too many pieces, 4 where the sink had a fault, 6 where memory runs out, 7 where a line can't be
/// translated.
pub fn translation<S: Source, K: Sink>(
    alloc: Global,
    wanted: &Wanted<'_>,
    tables: &Tables,
    moment: Timestamp,
    source: &mut S,
    sink: &mut K,
) -> u8
    ensures told { (result ≡ 0) ⊎ (result ≡ 7)
        → IfTold (S.left source.old) (S.left source.new) (λ bytes _.
        IfTold (K.written sink.old) (K.written sink.new)
        (AppendsTranslated (target wanted.now) tables.now result bytes)) }
    ensures due { (result ≡ 0) ⊎ (result ≡ 7)
        → IfTold (S.left source.old) (S.left source.new) (λ bytes _.
        IsDue (target wanted.now) tables.now result bytes) }
    ensures front { result ≡ 4 → IfTold (S.left source.old) (S.left source.new) (λ bytes _.
        IfTold (K.written sink.old) (K.written sink.new)
        (AppendsTranslatedFront (target wanted.now) tables.now bytes)) }
    ensures end { (result ≡ 0) ⊎ (result ≡ 7) → S.ended source.new ≡ true }
    ensures taken { (result ≡ 0) ⊎ (result ≡ 7)
        → IfTold (S.left source.old) (S.left source.new) (λ bytes left. left ≡ []) }
    ensures nothing { (result ≡ 3) ⊎ ((result ≡ 5) ⊎ (result ≡ 6)) → sink.new ≡ sink.old }
    ensures unknown { (result ≡ 2) ↔ (IsSome (start_refusal made_setting tables.now)
        ⊎ IsSome (target_refusal (target wanted.now) tables.now)) }
    ensures known { result ≢ 1 }
    ensures untouched { result ≡ 2 → (source.new ≡ source.old) × (sink.new ≡ sink.old) }
    ensures read_fault { result ≡ 3 → HasFault (S.faults source.old) (S.faults source.new) }
    ensures write_fault { result ≡ 4 → HasFault (K.faults sink.old) (K.faults sink.new) }
    ensures too_many { result ≡ 5 → IfTold (S.left source.old) (S.left source.new)
        (λ before now. 2 ^ 32 + length now ≤ length before) }
    ensures unseen { result ≡ 5 → S.ended source.new ≡ S.ended source.old }
    ensures most { result ≤ 7 }
    ensures completes { IsNone (start_refusal made_setting tables.now)
        → IsNone (target_refusal (target wanted.now) tables.now)
        → IsSomeAnd (S.left source.old) (λ bytes. length bytes < 2 ^ 32)
        → ¬ HasFault (S.faults source.old) (S.faults source.new)
        → ¬ HasFault (K.faults sink.old) (K.faults sink.new)
        → (result ≡ 0) ⊎ ((result ≡ 6) ⊎ (result ≡ 7)) }
{
    if is_unknown(tables, wanted) {
        return 2;
    }
    match english_book(alloc, tables, moment) {
        Ok(mut model) => from_book(alloc, &mut model, wanted, source, sink),
        Err(status) => status,
    }
}

/// Whether the tables lack the locale or the language that lines are asked for in.
fn is_unknown(tables: &Tables, wanted: &Wanted<'_>) -> bool
    ensures { result ≡ is_some (target_refusal (target wanted.now) tables.now) }
{
    tables.get_named_locale(wanted.locale).is_err() || tables.get_language(wanted.language).is_err()
}

/// Translates the lines of a source on a book, and writes what they become. Answers the status.
fn from_book<S: Source, K: Sink>(
    alloc: Global,
    model: &mut Model<'_>,
    wanted: &Wanted<'_>,
    source: &mut S,
    sink: &mut K,
) -> u8
    requires { IsNone (target_refusal (target wanted.now) model.old.book.tables) }
    ensures told { (result ≡ 0) ⊎ (result ≡ 7)
        → IfTold (S.left source.old) (S.left source.new) (λ bytes _.
        IfTold (K.written sink.old) (K.written sink.new)
        (AppendsTold (target wanted.now) (whole_of model.old.book) (texts_of bytes) result)) }
    ensures due { (result ≡ 0) ⊎ (result ≡ 7)
        → IfTold (S.left source.old) (S.left source.new) (λ bytes _.
        due_status (target wanted.now) (whole_of model.old.book) (texts_of bytes) ≡ result) }
    ensures front { result ≡ 4 → IfTold (S.left source.old) (S.left source.new) (λ bytes _.
        IfTold (K.written sink.old) (K.written sink.new)
        (AppendsToldFront (target wanted.now) (whole_of model.old.book) (texts_of bytes))) }
    ensures end { (result ≡ 0) ⊎ (result ≡ 7) → S.ended source.new ≡ true }
    ensures taken { (result ≡ 0) ⊎ (result ≡ 7)
        → IfTold (S.left source.old) (S.left source.new) (λ bytes left. left ≡ []) }
    ensures nothing { (result ≡ 3) ⊎ ((result ≡ 5) ⊎ (result ≡ 6)) → sink.new ≡ sink.old }
    ensures known { (result ≢ 1) × (result ≢ 2) }
    ensures read_fault { result ≡ 3 → HasFault (S.faults source.old) (S.faults source.new) }
    ensures write_fault { result ≡ 4 → HasFault (K.faults sink.old) (K.faults sink.new) }
    ensures too_many { result ≡ 5 → IfTold (S.left source.old) (S.left source.new)
        (λ before now. 2 ^ 32 + length now ≤ length before) }
    ensures unseen { result ≡ 5 → S.ended source.new ≡ S.ended source.old }
    ensures most { result ≤ 7 }
    ensures completes { IsSomeAnd (S.left source.old) (λ bytes. length bytes < 2 ^ 32)
        → ¬ HasFault (S.faults source.old) (S.faults source.new)
        → ¬ HasFault (K.faults sink.old) (K.faults sink.new)
        → (result ≡ 0) ⊎ ((result ≡ 6) ⊎ (result ≡ 7)) }
{
    match read_lines(alloc, source) {
        Ok(lines) => write_translated(alloc, model, &lines, wanted, sink),
        Err(e) => status_of_error(&e),
    }
}

/// The status where the lines couldn't be read.
pub(crate) fn status_of_error(e: &RunError) -> u8
    ensures { result ≡ run_status (Err e.now) }
{
    match e {
        RunError::ReadFault => 3,
        RunError::WriteFault => 4,
        RunError::TooManyTurns => 5,
        RunError::OutOfMemory => 6,
    }
}

/// Translates lines on a book, and writes what they become, or which can't be translated. Answers the status.
fn write_translated<K: Sink>(
    alloc: Global,
    model: &mut Model<'_>,
    lines: &[Line],
    wanted: &Wanted<'_>,
    sink: &mut K,
) -> u8
    requires { IsNone (target_refusal (target wanted.now) model.old.book.tables) }
    ensures told { (result ≡ 0) ⊎ (result ≡ 7) → IfTold (K.written sink.old) (K.written sink.new)
        (AppendsTold (target wanted.now) (whole_of model.old.book) lines.now result) }
    ensures due { (result ≡ 0) ⊎ (result ≡ 7)
        → due_status (target wanted.now) (whole_of model.old.book) lines.now ≡ result }
    ensures front { result ≡ 4 → IfTold (K.written sink.old) (K.written sink.new)
        (AppendsToldFront (target wanted.now) (whole_of model.old.book) lines.now) }
    ensures nothing { result ≡ 6 → sink.new ≡ sink.old }
    ensures write_fault { result ≡ 4 → HasFault (K.faults sink.old) (K.faults sink.new) }
    ensures which { (result ≡ 0) ⊎ ((result ≡ 4) ⊎ ((result ≡ 6) ⊎ (result ≡ 7))) }
{
    match translate(alloc, model, lines, wanted.locale, wanted.language) {
        Ok(lines) => write_lines(alloc, wanted, &lines, sink),
        Err(TranslateError::Cannot { line, why }) => write_cannot(alloc, line, why, sink),
        Err(TranslateError::OutOfMemory) => 6,
        // The tables have both.
        Err(TranslateError::InvalidLocale | TranslateError::InvalidLanguage) => 2,
    }
}

/// Writes the lines that choose the notation, and translated lines. Answers the status: 0, 4 where the sink had a fault, 6
/// where memory ran out before.
fn write_lines<K: Sink>(alloc: Global, wanted: &Wanted<'_>, lines: &[Line], sink: &mut K) -> u8
    ensures ok { result ≡ 0 → IfTold (K.written sink.old) (K.written sink.new)
        (λ before now. now ≡ before ++ told_bytes (target wanted.now) (Ok lines.now)) }
    ensures front { result ≡ 4 → IfTold (K.written sink.old) (K.written sink.new)
        (AppendsFront (told_bytes (target wanted.now) (Ok lines.now))) }
    ensures nothing { result ≡ 6 → sink.new ≡ sink.old }
    ensures fault { result ≡ 4 → HasFault (K.faults sink.old) (K.faults sink.new) }
    ensures which { (result ≡ 0) ⊎ ((result ≡ 4) ⊎ (result ≡ 6)) }
{
    match told(alloc, wanted, lines) {
        Ok(text) => written(sink, text.as_bytes(), 0),
        Err(OutOfMemory) => 6,
    }
}

/// Writes which line can't be translated, and why. Answers the status: 7, 4 where the sink had a fault, 6 where memory ran
/// out before.
fn write_cannot<K: Sink>(alloc: Global, line: u64, why: Why, sink: &mut K) -> u8
    ensures ok { result ≡ 7 → IfTold (K.written sink.old) (K.written sink.new)
        (λ before now. now ≡ before ++ told_cannot line (why_meant why)) }
    ensures front { result ≡ 4 → IfTold (K.written sink.old) (K.written sink.new)
        (AppendsFront (told_cannot line (why_meant why))) }
    ensures nothing { result ≡ 6 → sink.new ≡ sink.old }
    ensures fault { result ≡ 4 → HasFault (K.faults sink.old) (K.faults sink.new) }
    ensures which { (result ≡ 7) ⊎ ((result ≡ 4) ⊎ (result ≡ 6)) }
{
    match told_of_line(alloc, line, why) {
        Ok(text) => written(sink, text.as_bytes(), 7),
        Err(OutOfMemory) => 6,
    }
}

/// The lines that choose the notation, and translated lines, each with a line feed. Only memory can be missing.
fn told(alloc: Global, wanted: &Wanted<'_>, lines: &[Line]) -> Result<String, OutOfMemory>
    ensures { IfOk result (λ text. chars (string_bytes text)
        ≡ flat_map ended_line (switches (target wanted.now) ++ lines.now)) }
{
    let mut text = String::new(alloc);
    push_switch(&mut text, "set_locale\t", wanted.locale)?;
    push_switch(&mut text, "set_language\t", wanted.language)?;
    push_lines(&mut text, lines)?;
    Ok(text)
}

/// Appends the line that chooses something by its id.
fn push_switch(text: &mut String, front: &str, id: &str) -> Result<(), OutOfMemory>
    ensures { OnOk result (chars (string_bytes text.new) ≡ chars (string_bytes text.old)
        ++ ended_line (chars front.now ++ escaped (chars id.now))) }
{
    push_text(text, front)?;
    push_escaped(text, id)?;
    push_char(text, '\n')
}

/// Appends lines, each with a line feed.
fn push_lines(text: &mut String, lines: &[Line]) -> Result<(), OutOfMemory>
    ensures { OnOk result (chars (string_bytes text.new) ≡ chars (string_bytes text.old)
        ++ flat_map ended_line lines.now) }
{
    for line in lines {
        push_line(text, line)?;
    }
    Ok(())
}

/// Appends a line with its line feed.
fn push_line(text: &mut String, line: &Line) -> Result<(), OutOfMemory>
    ensures { OnOk result (chars (string_bytes text.new) ≡ chars (string_bytes text.old)
        ++ ended_line line.now) }
{
    push_text(text, line.text().as_str())?;
    push_char(text, '\n')
}

/// Which line can't be translated, and why. Only memory can be missing.
fn told_of_line(alloc: Global, line: u64, why: Why) -> Result<String, OutOfMemory>
    ensures { IfOk result (λ text. string_bytes text ≡ told_cannot line (why_meant why)) }
{
    let mut text = String::new(alloc);
    let name = name_of(why);
    write!(text, "cannot\t{line}\t{name}\n")?;
    Ok(text)
}

/// The name of a reason.
fn name_of(why: Why) -> &'static str
    ensures { result.now ≡ why_name (why_meant why) }
{
    match why {
        Why::Raw => "Raw",
        Why::Clash => "Clash",
    }
}
