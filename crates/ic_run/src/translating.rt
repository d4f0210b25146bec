//! Command lines in another notation, so that they leave the same book.
ghost use Rattle.std.specs.Prelude.{List, ℕ, true, Err, IfErr, ◌≡◌, ◌⊎◌, IfOk, OnErr, OnOk, Some, chars, false};
ghost use Rattle.ic_machine.specs.Book as machine;
ghost use Rattle.ic_machine.specs.Command.{Command, OnSheets, command_in, commands};
ghost use Rattle.ic_machine.specs.Step.{english_errors, line_step};
ghost use Rattle.ic_machine.specs.Translation.{is_dropped, is_switch, left_after};
ghost use Rattle.ic_machine.specs.subjects.Sheets.{NewSheet, new_sheet_name};
ghost use Rattle.ic_parts.specs.Book.{IsValidBook};
ghost use Rattle.ic_parts.specs.Translated.{IsToldWhere, notation_refusal};
ghost use Rattle.ic_parts.specs.Whole.{whole_of};
ghost use Rattle.ic_run.specs.Make.{is_ok};
ghost use Rattle.ic_run.specs.Translate.{AreAcceptedBeside, HasTranslated, IsPlan, IsTurn, StaysSo, unknown_told};

use crate::counts::is_ok;
use crate::plan::{Plan, plan_of};
use crate::retold::{line_with_last, new_sheet_line, same_line};
use ic_book::{BookError, Model, Notation, OwnText, Why};
use ic_commands::{answer_line, english_of};
use ic_laws::OutOfMemory;
use ic_lines::Line;
use ic_words::command_in;
use std::alloc::{AllocFailed, Global};
use thiserror::Error;

/// Why command lines could not be translated. Each displays its name.
#[derive(Debug, Drop, Error)]
pub enum TranslateError {
    /// No locale of the tables has the id.
    #[error("InvalidLocale")]
    InvalidLocale,
    /// No language of the tables has the code.
    #[error("InvalidLanguage")]
    InvalidLanguage,
    /// This is the first line, counted from 1, that can't be translated, and why.
    #[error("Cannot")]
    Cannot { line: u64, why: Why },
    /// Memory ran out.
    #[error("OutOfMemory")]
    OutOfMemory,
}

impl From<OutOfMemory> for TranslateError {
    ghost use Rattle.std.specs.Prelude.{◌≡◌};
    ghost use Rattle.ic_run.specs.declared.translating.TranslateError.TheVariants as errors;

    ghost from_gives = { λ _ e. e ≡ errors.OutOfMemory };

    fn from(_: OutOfMemory) -> TranslateError {
        TranslateError::OutOfMemory
    }
}

impl From<AllocFailed<Line>> for TranslateError {
    ghost use Rattle.std.specs.Prelude.{◌≡◌};
    ghost use Rattle.ic_run.specs.declared.translating.TranslateError.TheVariants as errors;

    ghost from_gives = { λ _ e. e ≡ errors.OutOfMemory };

    fn from(_: AllocFailed<Line>) -> TranslateError {
        TranslateError::OutOfMemory
    }
}

/// Runs command lines on a book, and answers what they become in the notation of a locale and a language, so that they leave
/// the same book: one line for each that is accepted, is no reader, and is neither `set_locale` nor `set_language`. The
/// formulas, numbers, booleans and error values that are typed in a line are written by the words and signs of that
/// notation; `new_sheet` becomes `add_sheet` with the name that it made.
///
/// `InvalidLocale` and `InvalidLanguage`, in this order, exactly where the tables lack them, and then no line runs. `Cannot`
/// exactly where the own formula of a line that would become one doesn't read (`Raw`), or has a name that is a word of the
/// language (`Clash`): it names the first such line, and the book is as the lines before that one leave it. `OutOfMemory`
/// leaves the book as some of the first lines do.
///
/// Every book that is the same as the one before, apart from its notation and its styles, and has that notation, accepts the
/// answered lines in their turn and is then the same as the one after, unless a definition is updated to a body that ends
/// with a blank in that notation.
pub fn translate(
    alloc: Global,
    model: &mut Model<'_>,
    lines: &[Line],
    locale_id: &str,
    language_id: &str,
) -> Result<Vec<Line>, TranslateError>
    ensures translated { HasTranslated (chars locale_id.now) (chars language_id.now)
        (whole_of model.old.book) lines.now result (whole_of model.new.book) }
    ensures unknown { unknown_told result ≡ notation_refusal (chars locale_id.now)
        (chars language_id.now) model.old.book.tables }
    ensures accepted { IfOk result (λ new. AreAcceptedBeside (chars locale_id.now)
        (chars language_id.now) (whole_of model.old.book) lines.now
        (whole_of model.new.book) new.items) }
{
    let target = target_named(model, locale_id, language_id)?;
    let mut translated = Vec::new(alloc);
    let mut number = 0u64;
    for line in lines {
        number += 1;
        match translate_line(alloc, model, line, &target)? {
            Turn::Goes => {}
            Turn::Becomes(new) => translated.push(new)?,
            Turn::Cannot(why) => return Err(TranslateError::Cannot { line: number, why }),
        }
    }
    Ok(translated)
}

/// The notation of a locale and a language.
fn target_named<'a>(
    model: &Model<'a>,
    locale_id: &str,
    language_id: &str,
) -> Result<Notation<'a>, TranslateError>
    ensures named { IfOk result (λ n. n ≡ record {
      tables = model.now.book.tables;
      locale = chars locale_id.now;
      language = chars language_id.now;
    }) }
    ensures unknown { unknown_told result ≡ notation_refusal (chars locale_id.now)
        (chars language_id.now) model.now.book.tables }
    ensures err { IfErr result (λ e. (locale language : List ℕ) (book : machine.Book)
        (lines : List (List ℕ)) → HasTranslated locale language book lines (Err e) book) }
    ensures valid { IsValidBook model.now.book }
{
    match model.notation_named(locale_id, language_id) {
        Ok(target) => Ok(target),
        Err(BookError::InvalidLocale) => Err(TranslateError::InvalidLocale),
        Err(_) => Err(TranslateError::InvalidLanguage),
    }
}

/// What a line comes to.
#[derive(Drop)]
pub enum Turn {
    /// It leaves nothing: it is no command, is refused, only asks, or chooses the notation.
    Goes,
    /// It becomes this line.
    Becomes(Line),
    /// It can't be translated, and didn't run.
    Cannot(Why),
}

/// Runs a line on a book, and answers what it comes to in a notation by the book's tables. Where memory runs out the book is as
/// before the line, or as after it.
fn translate_line(
    alloc: Global,
    model: &mut Model<'_>,
    line: &Line,
    target: &Notation<'_>,
) -> Result<Turn, OutOfMemory>
    requires { target.now.tables ≡ model.old.book.tables }
    ensures turn { IfOk result (IsTurn target.now.locale target.now.language
        (whole_of model.old.book) line.now (whole_of model.new.book)) }
    ensures err { OnErr result ((whole_of model.new.book ≡ whole_of model.old.book)
        ⊎ (whole_of model.new.book ≡ left_after (whole_of model.old.book) line.now)) }
{
    let english = english_of(model);
    let Some(command) = command_in(alloc, english, line.text().as_str())? else {
        return Ok(Turn::Goes);
    };
    let plan = plan_of(model, &command, target)?;
    do_plan(alloc, model, line, &plan, target)
}

/// Does with a line what is planned for its command.
fn do_plan(
    alloc: Global,
    model: &mut Model<'_>,
    line: &Line,
    plan: &Plan,
    target: &Notation<'_>,
) -> Result<Turn, OutOfMemory>
    requires tables { target.now.tables ≡ model.old.book.tables }
    requires plan { (command : Command) × (command_in (english_errors (whole_of model.old.book))
        commands line.now ≡ Some command)
        × IsPlan target.now (whole_of model.old.book) command plan.now }
    ensures turn { IfOk result (IsTurn target.now.locale target.now.language
        (whole_of model.old.book) line.now (whole_of model.new.book)) }
    ensures err { OnErr result ((whole_of model.new.book ≡ whole_of model.old.book)
        ⊎ (whole_of model.new.book ≡ left_after (whole_of model.old.book) line.now)) }
{
    match plan {
        Plan::Goes => Ok(Turn::Goes),
        Plan::Runs => run_alone(alloc, model, line),
        Plan::Stays => run_staying(alloc, model, line),
        Plan::AddsSheet(name) => run_adding(alloc, model, line, name.as_str()),
        Plan::Writes(own) => run_writing(alloc, model, line, own, target),
    }
}

/// Runs a line that goes.
fn run_alone(alloc: Global, model: &mut Model<'_>, line: &Line) -> Result<Turn, OutOfMemory>
    requires { (command : Command) × (command_in (english_errors (whole_of model.old.book)) commands
        line.now ≡ Some command) × (is_switch command ≡ true) }
    ensures turn { (locale language : List ℕ) → IfOk result (IsTurn locale language
        (whole_of model.old.book) line.now (whole_of model.new.book)) }
    ensures err { OnErr result (whole_of model.new.book ≡ whole_of model.old.book) }
{
    is_accepted(alloc, model, line)?;
    Ok(Turn::Goes)
}

/// Runs a line that becomes one with the same texts.
fn run_staying(alloc: Global, model: &mut Model<'_>, line: &Line) -> Result<Turn, OutOfMemory>
    requires { (command : Command) × (command_in (english_errors (whole_of model.old.book)) commands
        line.now ≡ Some command) × StaysSo (whole_of model.old.book) command }
    ensures turn { (locale language : List ℕ) → IfOk result (IsTurn locale language
        (whole_of model.old.book) line.now (whole_of model.new.book)) }
    ensures err { OnErr result ((whole_of model.new.book ≡ whole_of model.old.book)
        ⊎ (whole_of model.new.book ≡ left_after (whole_of model.old.book) line.now)) }
{
    if !is_accepted(alloc, model, line)? {
        return Ok(Turn::Goes);
    }
    Ok(Turn::Becomes(same_line(alloc, line)?))
}

/// Runs a line that makes a sheet of this name, and becomes one that adds it.
fn run_adding(
    alloc: Global,
    model: &mut Model<'_>,
    line: &Line,
    name: &str,
) -> Result<Turn, OutOfMemory>
    requires command { command_in (english_errors (whole_of model.old.book)) commands line.now
        ≡ Some (OnSheets NewSheet) }
    requires name { chars name.now ≡ new_sheet_name (whole_of model.old.book) }
    ensures turn { (locale language : List ℕ) → IfOk result (IsTurn locale language
        (whole_of model.old.book) line.now (whole_of model.new.book)) }
    ensures err { OnErr result ((whole_of model.new.book ≡ whole_of model.old.book)
        ⊎ (whole_of model.new.book ≡ left_after (whole_of model.old.book) line.now)) }
{
    if !is_accepted(alloc, model, line)? {
        return Ok(Turn::Goes);
    }
    Ok(Turn::Becomes(new_sheet_line(alloc, name)?))
}

/// Runs a line whose own text is written anew, unless that can't be.
fn run_writing(
    alloc: Global,
    model: &mut Model<'_>,
    line: &Line,
    own: &OwnText,
    target: &Notation<'_>,
) -> Result<Turn, OutOfMemory>
    requires tables { target.now.tables ≡ model.old.book.tables }
    requires own { (command : Command) × (command_in (english_errors (whole_of model.old.book))
        commands line.now ≡ Some command) × (is_dropped command ≡ false)
        × IsToldWhere target.now (whole_of model.old.book) command (Some own.now) }
    ensures turn { IfOk result (IsTurn target.now.locale target.now.language
        (whole_of model.old.book) line.now (whole_of model.new.book)) }
    ensures err { OnErr result ((whole_of model.new.book ≡ whole_of model.old.book)
        ⊎ (whole_of model.new.book ≡ left_after (whole_of model.old.book) line.now)) }
{
    if let Some(why) = own.why_not(target) {
        return Ok(Turn::Cannot(why));
    }
    if !is_accepted(alloc, model, line)? {
        return Ok(Turn::Goes);
    }
    let text = model.own_text(own, target)?;
    Ok(Turn::Becomes(line_with_last(alloc, line, text)?))
}

/// Runs a line on a book, and answers whether it is accepted.
fn is_accepted(alloc: Global, model: &mut Model<'_>, line: &Line) -> Result<bool, OutOfMemory>
    ensures accepted { IfOk result (λ b. b
        ≡ is_ok (line_step commands (whole_of model.old.book) line.now).1) }
    ensures left { OnOk result (whole_of model.new.book
        ≡ left_after (whole_of model.old.book) line.now) }
    ensures tables { OnOk result (model.new.book.tables ≡ model.old.book.tables) }
    ensures err { OnErr result (whole_of model.new.book ≡ whole_of model.old.book) }
{
    let reply = answer_line(alloc, model, line)?;
    Ok(is_ok(&reply))
}
