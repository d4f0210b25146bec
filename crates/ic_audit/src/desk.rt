//! What the program does with its words.
ghost use Rattle.std.specs.Prelude.{◌≡◌, ◌≢◌, ◌⊎◌, ◌↔◌, ◌+◌, ◌++◌, ◌<◌, ◌≤◌, ◌^◌, [], None, Some, true, chars, length, map, IfErr, IfOk, IfSome, IsNone, IsSome, IsSomeAnd};
ghost use Rattle.ic_lines.specs.Bytes.{AppendsFront, HasFault, IfTold};
ghost use Rattle.ic_parts.specs.Sites.{site_of};
ghost use Rattle.ic_parts.specs.Whole.{whole_of};
ghost use Rattle.ic_run.specs.Desk.{start_refusal, texts};
ghost use Rattle.ic_run.specs.Make.{made_setting};
ghost use Rattle.ic_audit.specs.Asked.{OfSheet, question, question_of, sites_asked};
ghost use Rattle.ic_audit.specs.Listed.{AppendsSites, AppendsSitesFront, FindsNothing, FindsSome, TellsSites, TellsSitesFront, told_sites};

use crate::AuditError;
use crate::asked::{Asked, asked_for};
use crate::mentions::{mentions_of_name, mentions_of_sheet};
use crate::told::told;
use ic_book::{MentionSite, Model};
use ic_laws::OutOfMemory;
use ic_lines::{Sink, Source};
use ic_run::{book_after, written};
use ic_tables::Tables;
use jiff::Timestamp;
use std::alloc::Global;
use std::mem::ManuallyDrop;

/// Reads all lines of the source, answers them on a new book in en, en and UTC, drops their replies, and writes who mentions what
/// the words ask for, one line a site. The words `sheet NAME` ask for the sheet of an agreeing name, `name NAME SCOPE` for the
/// definition of an agreeing name that is local to the sheet at the index SCOPE, or to none where that is `-`; no words are
/// `sheet Sheet1`.
///
/// The memory of the book isn't given back: whoever calls this ends the process with the status.
///
/// The status is 0 where all sites are written, 1 exactly for any other words, 2 exactly where it isn't 1 and the tables lack
/// `en` or UTC, 3 where a read failed, 4 where a write did, 5 after 2^32 reads that each gave a byte, where none showed the end,
/// 6 where memory runs out, 8 where none of these comes and there is no such sheet or no such definition.
pub fn audit_desk<S: Source, K: Sink>(
    alloc: Global,
    words: &[String],
    tables: &Tables,
    moment: Timestamp,
    source: &mut S,
    sink: &mut K,
) -> u8
    // With 0 the sites in the book after the lines of all bytes were written, and with 8 there is no such sheet or no such
    // definition in that book; with 4 a front of the sites was written, with 3, 5, 6 and 8 nothing.
    ensures listed { result ≡ 0 → IfSome (question_of (texts words.now)) (λ question.
        IfTold (S.left source.old) (S.left source.new) (λ bytes _.
        IfTold (K.written sink.old) (K.written sink.new)
        (AppendsSites question tables.now bytes))) }
    ensures front { result ≡ 4 → IfSome (question_of (texts words.now)) (λ question.
        IfTold (S.left source.old) (S.left source.new) (λ bytes _.
        IfTold (K.written sink.old) (K.written sink.new)
        (AppendsSitesFront question tables.now bytes))) }
    ensures none { result ≡ 8 → IfSome (question_of (texts words.now)) (λ question.
        IfTold (S.left source.old) (S.left source.new) (FindsNothing question tables.now)) }

    // Whatever the sink tells, 0 and 4 come only where there is such a sheet or such a definition in that book.
    ensures found { (result ≡ 0) ⊎ (result ≡ 4)
        → IfSome (question_of (texts words.now)) (λ question.
        IfTold (S.left source.old) (S.left source.new) (FindsSome question tables.now)) }
    ensures nothing { (result ≡ 3) ⊎ ((result ≡ 5) ⊎ ((result ≡ 6) ⊎ (result ≡ 8)))
        → sink.new ≡ sink.old }

    // Both come only where a read showed the end, and all bytes were taken.
    ensures end { (result ≡ 0) ⊎ (result ≡ 8) → S.ended source.new ≡ true }
    ensures taken { (result ≡ 0) ⊎ (result ≡ 8)
        → IfTold (S.left source.old) (S.left source.new) (λ bytes left. left ≡ []) }

    // Each other status has its cause; that memory ran out may come in place of all but 1 and 2.
    ensures usage { (result ≡ 1) ↔ IsNone (question_of (texts words.now)) }
    ensures unknown { (result ≡ 2) ↔ (IsSome (question_of (texts words.now))
        × IsSome (start_refusal made_setting tables.now)) }
    ensures untouched { (result ≡ 1) ⊎ (result ≡ 2) → (source.new ≡ source.old)
        × (sink.new ≡ sink.old) }
    ensures read_fault { result ≡ 3 → HasFault (S.faults source.old) (S.faults source.new) }
    ensures write_fault { result ≡ 4 → HasFault (K.faults sink.old) (K.faults sink.new) }
    ensures too_many { result ≡ 5 → IfTold (S.left source.old) (S.left source.new)
        (λ before now. 2 ^ 32 + length now ≤ length before) }
    ensures unseen { result ≡ 5 → S.ended source.new ≡ S.ended source.old }
    ensures most { (result ≤ 8) × (result ≢ 7) }

    // Where there is no fault, and the source holds fewer than 2^32 bytes, only that memory runs out is left beside 0 and 8.
    ensures completes { IsSome (question_of (texts words.now))
        → IsNone (start_refusal made_setting tables.now)
        → IsSomeAnd (S.left source.old) (λ bytes. length bytes < 2 ^ 32)
        → ¬ HasFault (S.faults source.old) (S.faults source.new)
        → ¬ HasFault (K.faults sink.old) (K.faults sink.new)
        → (result ≡ 0) ⊎ ((result ≡ 6) ⊎ (result ≡ 8)) }
{
    match asked_for(words) {
        Some(asked) => answered(alloc, &asked, tables, moment, source, sink),
        None => 1,
    }
}

/// The same for what is asked for.
fn answered<S: Source, K: Sink>(
    alloc: Global,
    asked: &Asked<'_>,
    tables: &Tables,
    moment: Timestamp,
    source: &mut S,
    sink: &mut K,
) -> u8
    ensures listed { result ≡ 0 → IfTold (S.left source.old) (S.left source.new) (λ bytes _.
        IfTold (K.written sink.old) (K.written sink.new)
        (AppendsSites (question asked.now) tables.now bytes)) }
    ensures front { result ≡ 4 → IfTold (S.left source.old) (S.left source.new) (λ bytes _.
        IfTold (K.written sink.old) (K.written sink.new)
        (AppendsSitesFront (question asked.now) tables.now bytes)) }
    ensures none { result ≡ 8 → IfTold (S.left source.old) (S.left source.new)
        (FindsNothing (question asked.now) tables.now) }
    ensures found { (result ≡ 0) ⊎ (result ≡ 4) → IfTold (S.left source.old) (S.left source.new)
        (FindsSome (question asked.now) tables.now) }
    ensures nothing { (result ≡ 3) ⊎ ((result ≡ 5) ⊎ ((result ≡ 6) ⊎ (result ≡ 8)))
        → sink.new ≡ sink.old }
    ensures end { (result ≡ 0) ⊎ (result ≡ 8) → S.ended source.new ≡ true }
    ensures taken { (result ≡ 0) ⊎ (result ≡ 8)
        → IfTold (S.left source.old) (S.left source.new) (λ bytes left. left ≡ []) }
    ensures known { result ≢ 1 }
    ensures unknown { (result ≡ 2) ↔ IsSome (start_refusal made_setting tables.now) }
    ensures untouched { result ≡ 2 → (source.new ≡ source.old) × (sink.new ≡ sink.old) }
    ensures read_fault { result ≡ 3 → HasFault (S.faults source.old) (S.faults source.new) }
    ensures write_fault { result ≡ 4 → HasFault (K.faults sink.old) (K.faults sink.new) }
    ensures too_many { result ≡ 5 → IfTold (S.left source.old) (S.left source.new)
        (λ before now. 2 ^ 32 + length now ≤ length before) }
    ensures unseen { result ≡ 5 → S.ended source.new ≡ S.ended source.old }
    ensures most { (result ≤ 8) × (result ≢ 7) }
    ensures completes { IsNone (start_refusal made_setting tables.now)
        → IsSomeAnd (S.left source.old) (λ bytes. length bytes < 2 ^ 32)
        → ¬ HasFault (S.faults source.old) (S.faults source.new)
        → ¬ HasFault (K.faults sink.old) (K.faults sink.new)
        → (result ≡ 0) ⊎ ((result ≡ 6) ⊎ (result ≡ 8)) }
{
    match book_after(alloc, tables, moment, source) {
        Ok(model) => {
            let status = tell(alloc, &model, asked, sink);
            let _ = ManuallyDrop::new(model);
            status
        }
        Err(status) => status,
    }
}

/// Writes the sites of a book that are asked for. The status: 0, 4 where the sink had a fault, 6 where memory ran out before, 8
/// exactly where there is no such sheet or no such definition, and that is seen.
fn tell<K: Sink>(alloc: Global, model: &Model<'_>, asked: &Asked<'_>, sink: &mut K) -> u8
    ensures listed { result ≡ 0 → IfTold (K.written sink.old) (K.written sink.new)
        (TellsSites (sites_asked (question asked.now) (whole_of model.now.book))) }
    ensures front { result ≡ 4 → IfTold (K.written sink.old) (K.written sink.new)
        (TellsSitesFront (sites_asked (question asked.now) (whole_of model.now.book))) }
    ensures none { result ≡ 8
        → sites_asked (question asked.now) (whole_of model.now.book) ≡ None }
    ensures found { (result ≡ 0) ⊎ (result ≡ 4)
        → IsSome (sites_asked (question asked.now) (whole_of model.now.book)) }
    ensures nothing { (result ≡ 6) ⊎ (result ≡ 8) → sink.new ≡ sink.old }
    ensures write_fault { result ≡ 4 → HasFault (K.faults sink.old) (K.faults sink.new) }
    ensures which { (result ≡ 0) ⊎ ((result ≡ 4) ⊎ ((result ≡ 6) ⊎ (result ≡ 8))) }
{
    match sites_of(alloc, model, asked) {
        Ok(sites) => write_sites(alloc, &sites, sink),
        Err(AuditError::OutOfMemory) => 6,
        Err(_) => 8,
    }
}

/// The sites of a book that are asked for.
fn sites_of(
    alloc: Global,
    model: &Model<'_>,
    asked: &Asked<'_>,
) -> Result<Vec<MentionSite>, AuditError>
    ensures sites { IfOk result (λ sites. sites_asked (question asked.now)
        (whole_of model.now.book) ≡ Some (map site_of sites.items)) }
    ensures none { IfErr result (λ e. e ≢ AuditError.OutOfMemory
        → sites_asked (question asked.now) (whole_of model.now.book) ≡ None) }
{
    match asked {
        Asked::Sheet(name) => sites_of_sheet(alloc, model, name),
        Asked::Name { name, scope } => mentions_of_name(alloc, model, name, *scope),
    }
}

/// The sites that mention the sheet of an agreeing name.
fn sites_of_sheet(
    alloc: Global,
    model: &Model<'_>,
    name: &str,
) -> Result<Vec<MentionSite>, AuditError>
    ensures sites { IfOk result (λ sites. sites_asked (OfSheet (chars name.now))
        (whole_of model.now.book) ≡ Some (map site_of sites.items)) }
    ensures none { IfErr result (λ e. e ≢ AuditError.OutOfMemory
        → sites_asked (OfSheet (chars name.now)) (whole_of model.now.book) ≡ None) }
{
    match model.index_of_sheet(name) {
        Some(index) => mentions_of_sheet(alloc, model, index),
        None => Err(AuditError::NoSuchSheet),
    }
}

/// Writes the lines of sites. The status: 0, 4 where the sink had a fault, 6 where memory ran out before.
fn write_sites<K: Sink>(alloc: Global, sites: &[MentionSite], sink: &mut K) -> u8
    ensures ok { result ≡ 0 → IfTold (K.written sink.old) (K.written sink.new)
        (λ before now. now ≡ before ++ told_sites (map site_of sites.now)) }
    ensures front { result ≡ 4 → IfTold (K.written sink.old) (K.written sink.new)
        (AppendsFront (told_sites (map site_of sites.now))) }
    ensures nothing { result ≡ 6 → sink.new ≡ sink.old }
    ensures fault { result ≡ 4 → HasFault (K.faults sink.old) (K.faults sink.new) }
    ensures which { (result ≡ 0) ⊎ ((result ≡ 4) ⊎ (result ≡ 6)) }
{
    match told(alloc, sites) {
        Ok(text) => written(sink, text.as_bytes(), 0),
        Err(OutOfMemory) => 6,
    }
}
