//! What the words `make SEED COUNT` do: lines are made and answered, and what became of them is told.
ghost use Rattle.std.specs.Prelude.{◌≡◌, ◌≢◌, ◌⊎◌, ◌↔◌, ◌++◌, ◌==◌, IfOk, IsNone, IsSome, OnOk, chars, map, slice_index, string_bytes};
ghost use Rattle.ic_lines.specs.Bytes.{AppendsFront, HasFault, IfTold};
ghost use Rattle.ic_machine.specs.Reply.{reply_text};
ghost use Rattle.ic_machine.specs.Run.{after};
ghost use Rattle.ic_parts.specs.Whole.{whole_of};
ghost use Rattle.ic_run.specs.Core.{whole_machine};
ghost use Rattle.ic_run.specs.Desk.{start_refusal, texts};
ghost use Rattle.ic_run.specs.Make.{AppendsSummary, AppendsSummaryFront, made_lines, made_setting, making_of, seed_said, summary_of, told_replies};

use crate::counts::summary;
use crate::made::Generator;
use crate::start::english_book;
use ic_book::Model;
use ic_commands::answer_line;
use ic_laws::OutOfMemory;
use ic_laws::scan::same_text;
use ic_lines::{Line, Sink, write_all};
use ic_tables::Tables;
use jiff::Timestamp;
use std::alloc::Global;

/// What is made: the seed of the generator, and how many lines.
#[derive(Drop)]
pub struct Making {
    pub seed: u64,
    pub count: u32,
}

/// The greatest count.
const MOST_LINES: u64 = 10_000;

/// What the words name; None where they aren't `make`, a seed and a count.
pub fn making_named(words: &[String]) -> Option<Making>
    ensures { result ≡ making_of (texts words.now) }
{
    if words.len() != 3 {
        return None;
    }
    if !same_text(words[0].as_str(), "make") {
        return None;
    }
    let seed = number_of(words[1].as_str())?;
    let count = number_of(words[2].as_str())?;
    if count > MOST_LINES {
        return None;
    }
    Some(Making {
        seed,
        count: count as u32,
    })
}

/// The unsigned number of 64 bits that a word says: ASCII digits, with or without zeros in front.
fn number_of(word: &str) -> Option<u64>
    ensures { result ≡ seed_said (chars word.now) }
{
    if has_plus(word) {
        return None;
    }
    word.parse::<u64>().ok()
}

/// Whether a plus stands first, which no number has.
fn has_plus(word: &str) -> bool
    ensures { result ≡ (slice_index word.now 0 == 43) }
{
    word.starts_with('+')
}

/// Makes the lines of a making and answers them on a new book in en, en and UTC; writes what became of them, and answers
/// the status: 0, 2 where the tables lack one of these three, 4 where the sink had a fault, 6 where memory runs out.
pub fn make<K: Sink>(
    alloc: Global,
    making: &Making,
    tables: &Tables,
    moment: Timestamp,
    sink: &mut K,
) -> u8
    ensures made { result ≡ 0 → IfTold (K.written sink.old) (K.written sink.new)
        (AppendsSummary making.now tables.now) }
    ensures front { result ≡ 4 → IfTold (K.written sink.old) (K.written sink.new)
        (AppendsSummaryFront making.now tables.now) }
    ensures write_fault { result ≡ 4 → HasFault (K.faults sink.old) (K.faults sink.new) }
    ensures unknown { (result ≡ 2) ↔ IsSome (start_refusal made_setting tables.now) }
    ensures untouched { (result ≡ 2) ⊎ (result ≡ 6) → sink.new ≡ sink.old }
    ensures which { (result ≡ 0) ⊎ ((result ≡ 2) ⊎ ((result ≡ 4) ⊎ (result ≡ 6))) }
    ensures completes { ¬ HasFault (K.faults sink.old) (K.faults sink.new)
        → IsNone (start_refusal made_setting tables.now) → (result ≡ 0) ⊎ (result ≡ 6) }
{
    match english_book(alloc, tables, moment) {
        Ok(mut model) => match told(alloc, &mut model, making) {
            Ok(text) => written(sink, text.as_bytes(), 0),
            Err(OutOfMemory) => 6,
        },
        Err(status) => status,
    }
}

/// Writes all of these bytes, and answers this status, or 4 where the sink had a fault.
pub fn written<K: Sink>(sink: &mut K, bytes: &[u8], status: u8) -> u8
    requires { status ≢ 4 }
    ensures ok { result ≡ status → IfTold (K.written sink.old) (K.written sink.new)
        (λ before now. now ≡ before ++ bytes.now) }
    ensures front { result ≡ 4 → IfTold (K.written sink.old) (K.written sink.new)
        (AppendsFront bytes.now) }
    ensures fault { result ≡ 4 → HasFault (K.faults sink.old) (K.faults sink.new) }
    ensures which { (result ≡ status) ⊎ (result ≡ 4) }
{
    match write_all(sink, bytes) {
        Ok(()) => status,
        Err(_) => 4,
    }
}

/// What is told of the lines of a making, which are answered on a book. Only memory can be missing.
fn told(alloc: Global, model: &mut Model<'_>, making: &Making) -> Result<String, OutOfMemory>
    ensures { IfOk result (λ text. string_bytes text
        ≡ summary_of making.now (whole_of model.old.book)) }
{
    let replies = replies_to_made(alloc, model, making)?;
    summary(alloc, making.count, replies.as_slice(), model)
}

/// The replies to the lines of a making, which are answered on a book.
fn replies_to_made(
    alloc: Global,
    model: &mut Model<'_>,
    making: &Making,
) -> Result<Vec<Line>, OutOfMemory>
    ensures replies { IfOk result (λ replies. replies.items
        ≡ map reply_text (told_replies (whole_of model.old.book) (made_lines making.now))) }
    ensures book { OnOk result (whole_of model.new.book
        ≡ after whole_machine (whole_of model.old.book) (made_lines making.now)) }
{
    let mut generator = Generator { state: making.seed };
    let mut replies = Vec::new(alloc);
    for made in 0..making.count {
        let line = generator.next_line(alloc, made + 1)?;
        replies.push(answer_line(alloc, model, &line)?)?;
    }
    Ok(replies)
}
