//! What C calls: books that C holds between calls, each opened, asked line after line, and closed.
//!
//! C has a room for each book, one pointer wide and zeros at first, and one more for the tables that all its books are read
//! and shown by. A line is a step of the whole machine, and the reply is the machine's; it goes into the room that C has for
//! it, or is kept for another call that copies it. Statuses are numbers with names (`status`).
#![tactic(auto)]

ghost use Rattle.std.specs.Prelude.{◌≡◌, ◌≢◌, ◌⊎◌, [], ◌∷◌, ◌*ℤ◌, None, Some, IfOk, IsSomeAnd, OnErr, chars, option_map, pos};
ghost use Rattle.ic_laws.specs.Lines.{line_text, texts_of};
ghost use Rattle.ic_c.specs.Answered.{AnswersIn, Copied, NotOpen, OfOpen};
ghost use Rattle.ic_c.specs.Held.{open_in, reply_of, tables_in};
ghost use Rattle.ic_c.specs.Opened.{AreUtf8, IsNew, IsOpenStatus, IsRefusal, KeepsTables, NoBook};
ghost use Rattle.jiff_core.specs.Timestamp.{IsTimestampNanos};

mod lines;
mod room;
mod session;
mod status;
mod wanted;

use ic_address::Address;
use ic_laws::OutOfMemory;
use ic_tables::Tables;
pub use room::Room;
use session::{Session, not_open};
use status::{NO_MEMORY, OK};
use std::alloc::Global;
use std::mem::replace;
use wanted::wanted_of;

/// What the room has, which is empty then.
fn take_out(alloc: Global, room: &mut Room) -> Option<Box<Session>>
    ensures given { room.old.held ≡ option_map (λ b. b.value) result }
    ensures empty { room.new.held ≡ None }
{
    let old = replace(room, room::empty(alloc));
    Some(room::opened(old)?.into_box())
}

/// Puts the session into the room. What it had is freed.
fn put_back(room: &mut Room, session: Box<Session>)
    ensures { room.new.held ≡ Some session.value }
{
    let old = replace(room, room::full(Address::of(session)));
    if let Some(address) = room::opened(old) {
        drop(address.into_box());
    }
}

/// The tables of the room, which are made where there are none.
fn tables_of(alloc: Global, room: &mut Room) -> Result<&'static Tables, OutOfMemory>
    ensures given { IfOk result (λ t. tables_in room.new.held ≡ Some t.now) }
    ensures kept { KeepsTables room.old.held room.new.held }
    ensures none { OnErr result (tables_in room.new.held ≡ None) }
{
    if let Some(session) = take_out(alloc, room) {
        let tables = session.tables;
        put_back(room, session);
        if let Some(tables) = tables {
            return Ok(tables);
        }
    }
    let session = session::tables(alloc)?;
    let tables = session.tables;
    put_back(room, session);
    match tables {
        Some(tables) => Ok(tables),
        None => unreachable!(),
    }
}

/// Opens a new book in the room; a book that it had is closed. The tables are those of the room `tables`, and are made there
/// where it is empty. The moment is in milliseconds after the Unix epoch.
///
/// `NOT_UTF8` where one of the four texts isn't UTF-8, then `INVALID_MOMENT` where the moment is outside the years -9999 to
/// 9999, then `INVALID_TIMEZONE`, `INVALID_LOCALE`, `INVALID_LANGUAGE` where the tables lack the zone, the locale or the
/// language; `NO_MEMORY`. After each of them the room is as it was.
#[unsafe(no_mangle)]
pub extern "C" fn lurvetta_open(
    alloc: Global,
    book: &mut Room,
    tables: &mut Room,
    name: &[u8],
    locale: &[u8],
    language: &[u8],
    zone: &[u8],
    milliseconds: i64,
) -> u8
    ensures opened { result ≡ 0 → IsSomeAnd (open_in book.new.held) (λ o.
        IsSomeAnd (tables_in tables.new.held) (λ t. IsNew (record {
          name = chars name.now;
          locale = chars locale.now;
          language = chars language.now;
          zone = chars zone.now;
        }) t o)) }
    ensures failed { result ≢ 0 → book.new.held ≡ book.old.held }
    ensures tables { KeepsTables tables.old.held tables.new.held }
    ensures not_utf8 { result ≡ 4
        → ¬ AreUtf8 (name.now ∷ locale.now ∷ language.now ∷ zone.now ∷ []) }
    ensures utf8 { result ≢ 4
        → AreUtf8 (name.now ∷ locale.now ∷ language.now ∷ zone.now ∷ []) }
    ensures no_moment { result ≡ 8 → ¬ IsTimestampNanos (milliseconds *ℤ pos 1_000_000) }
    ensures moment { result ≢ 4 → result ≢ 8
        → IsTimestampNanos (milliseconds *ℤ pos 1_000_000) }
    ensures refused { (result ≡ 1) ⊎ IsRefusal result → NoBook (record {
      name = chars name.now;
      locale = chars locale.now;
      language = chars language.now;
      zone = chars zone.now;
    }) (tables_in tables.new.held) result }
    ensures which { IsOpenStatus result }
{
    let wanted = match wanted_of(name, locale, language, zone, milliseconds) {
        Ok(wanted) => wanted,
        Err(status) => return status,
    };
    let Ok(shared) = tables_of(alloc, tables) else {
        return NO_MEMORY;
    };
    match session::opened(alloc, shared, &wanted) {
        Ok(session) => {
            put_back(book, session);
            OK
        }
        Err(status) => status,
    }
}

/// Closes the book of the room, if there is one. The tables stay.
#[unsafe(no_mangle)]
pub extern "C" fn lurvetta_close(alloc: Global, book: &mut Room)
    ensures { book.new.held ≡ None }
{
    drop(take_out(alloc, book));
}

/// Answers a command line, which has no line feed at its end. The reply ends with one.
///
/// `OK`: the reply stands in `out`. `NO_ROOM`: the line was answered, and the reply is kept for `lurvetta_copy`. `NO_MEMORY`:
/// the line wasn't answered, and the book is as it was. `NOT_OPEN`: the room has no book. `told` is the length of the reply
/// that is kept then.
#[unsafe(no_mangle)]
pub extern "C" fn lurvetta_answer(
    alloc: Global,
    book: &mut Room,
    line: &[u8],
    out: &mut [u8],
    told: &mut usize,
) -> u8
    ensures { AnswersIn (line_text line.now ∷ []) book.old.held book.new.held
        out.old out.new told.new result }
{
    let Some(mut session) = take_out(alloc, book) else {
        return not_open(told);
    };
    let status = session.answer(alloc, line, out, told);
    put_back(book, session);
    status
}

/// Answers the lines of the bytes, each of which ends with a line feed or with the bytes. There is one reply a line, which
/// ends with a line feed, too.
///
/// `OK`: the replies stand in `out`. `NO_ROOM`: all lines were answered, and the replies are kept for `lurvetta_copy`.
/// `NO_MEMORY`: some of the first lines were answered, never all, and the replies to these are kept. `NOT_OPEN`: the room has
/// no book. `told` is the length of the replies that are kept then.
#[unsafe(no_mangle)]
pub extern "C" fn lurvetta_run(
    alloc: Global,
    book: &mut Room,
    lines: &[u8],
    out: &mut [u8],
    told: &mut usize,
) -> u8
    ensures { AnswersIn (texts_of lines.now) book.old.held book.new.held
        out.old out.new told.new result }
{
    let Some(mut session) = take_out(alloc, book) else {
        return not_open(told);
    };
    let status = session.run(alloc, lines, out, told);
    put_back(book, session);
    status
}

/// Copies the reply that the last `lurvetta_answer` or `lurvetta_run` kept, as often as it is asked to: none where nothing was
/// answered yet.
///
/// `OK`, or `NO_ROOM`, `NOT_OPEN`. `told` is the length of the reply.
#[unsafe(no_mangle)]
pub extern "C" fn lurvetta_copy(
    alloc: Global,
    book: &mut Room,
    out: &mut [u8],
    told: &mut usize,
) -> u8
    ensures same { book.new.held ≡ book.old.held }
    ensures copied { OfOpen (λ a _. Copied (reply_of a) out.old out.new told.new result)
        (NotOpen out.old out.new told.new result)
        (open_in book.old.held) (open_in book.old.held) }
{
    let Some(session) = take_out(alloc, book) else {
        return not_open(told);
    };
    let status = session.copy(out, told);
    put_back(book, session);
    status
}
