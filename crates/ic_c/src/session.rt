//! What stands behind a room: tables, and maybe a book over them with the reply to what it answered last.
ghost use Rattle.std.specs.Prelude.{◌≡◌, [], ◌∷◌, ◌++◌, length, None, Some, IfErr, IfOk, IsSomeAnd, OnErr, OnOk, chars, string_bytes};
ghost use Rattle.ic_laws.specs.Lines.{line_text, texts_of};
ghost use Rattle.ic_tables.specs.Sample.{sample};
ghost use Rattle.ic_c.specs.Answered.{Answered, AnsweredFirst, Answers, Copied, NotOpen, OfOpen, OfSession, whole_machine};
ghost use Rattle.ic_c.specs.Held.{book_of, reply_of};
ghost use Rattle.ic_c.specs.Opened.{IsNew, TellsRefusal, error_status, wanted_refusal};
ghost use Rattle.ic_c.specs.Wanted.{wanted};

use crate::lines::first_line;
use crate::status::{
    INVALID_LANGUAGE, INVALID_LOCALE, INVALID_TIMEZONE, NO_MEMORY, NO_ROOM, NOT_OPEN, OK,
};
use crate::wanted::Wanted;
use ic_book::{BookError, Model};
use ic_commands::reply_to_text;
use ic_laws::OutOfMemory;
use ic_lines::text_of;
use ic_tables::{Tables, sample_tables};
use std::alloc::Global;
use std::mem;

/// A book, and the reply to what it answered last: that of the lines before the last one, and that of the last one.
pub struct Open {
    pub book: Model<'static>,
    pub replies: Vec<u8>,
    pub last: String,
}

impl Drop for Open {
    fn drop(self) {
        let Self {
            book,
            replies,
            last,
        } = self;
        drop(book);
        drop(replies);
        drop(last);
    }
}

/// Tables, which are never freed, and a book over them, if one is open.
#[derive(Drop)]
pub struct Session {
    pub tables: Option<&'static Tables>,
    pub opened: Option<Open>,
}

/// A box of neither tables nor a book.
fn blank(alloc: Global) -> Result<Box<Session>, OutOfMemory>
    ensures { IfOk result (λ b. b.value.opened ≡ None) }
{
    let blank = Session {
        tables: None,
        opened: None,
    };
    match Box::new(alloc, blank) {
        Ok(session) => Ok(session),
        Err(_) => Err(OutOfMemory),
    }
}

/// The tables, with no book. They are leaked: a book that outlives the call has to borrow them for good. All memory is taken
/// before that, so that nothing is lost where it runs out.
pub fn tables(alloc: Global) -> Result<Box<Session>, OutOfMemory>
    ensures tables { IfOk result (λ b. IsSomeAnd b.value.tables (λ t. t.now ≡ sample)) }
    ensures closed { IfOk result (λ b. b.value.opened ≡ None) }
{
    let mut session = blank(alloc)?;
    let tables = match Box::new(alloc, sample_tables(alloc)?) {
        Ok(tables) => tables,
        Err(_) => return Err(OutOfMemory),
    };
    session.tables = Some(Box::leak(tables));
    Ok(session)
}

/// A new book over the tables. Where there is none, the status.
pub fn opened(
    alloc: Global,
    tables: &'static Tables,
    asked: &Wanted<'_>,
) -> Result<Box<Session>, u8>
    ensures opened { IfOk result (λ b. IsSomeAnd b.value.opened
        (IsNew (wanted asked.now) tables.now)) }
    ensures tables { IfOk result (λ b. IsSomeAnd b.value.tables (λ t. t.now ≡ tables.now)) }
    ensures refused { IfErr result
        (TellsRefusal (wanted_refusal (wanted asked.now) tables.now)) }
{
    let book = match asked.book(alloc, tables) {
        Ok(book) => book,
        Err(e) => return Err(status_of(&e)),
    };
    let Ok(mut session) = blank(alloc) else {
        return Err(NO_MEMORY);
    };
    session.tables = Some(tables);
    session.opened = Some(Open {
        book,
        replies: Vec::new(alloc),
        last: String::new(alloc),
    });
    Ok(session)
}

impl Open {
    /// Answers a line. The reply that was kept gives way to its own, or to none where memory runs out.
    pub fn answer(&mut self, alloc: Global, line: &[u8]) -> Result<(), OutOfMemory>
        ensures ok { OnOk result (Answered (line_text line.now ∷ []) self.old self.new) }
        ensures err { OnErr result (AnsweredFirst (line_text line.now ∷ []) self.old self.new) }
    {
        self.replies.clear();
        self.step(alloc, text_of(line))
    }

    /// Answers the lines of the bytes. Where memory runs out some of the first were answered, never all, and their replies
    /// are kept.
    pub fn run(&mut self, alloc: Global, bytes: &[u8]) -> Result<(), OutOfMemory>
        ensures ok { OnOk result (Answered (texts_of bytes.now) self.old self.new) }
        ensures err { OnErr result (AnsweredFirst (texts_of bytes.now) self.old self.new) }
    {
        self.replies.clear();
        self.last.clear();
        let mut rest = bytes;
        'lines: while let Some(first) = first_line(rest) {
            self.step_on(alloc, first.line)?;
            rest = first.rest;
        }
        Ok(())
    }

    // Answers one line more, and keeps the replies to those before it. Where memory runs out these are all that is kept.
    fn step_on(&mut self, alloc: Global, line: &str) -> Result<(), OutOfMemory>
        ensures book { OnOk result
            (book_of self.new ≡ (whole_machine (book_of self.old) (chars line.now)).0) }
        ensures reply { OnOk result (reply_of self.new
            ≡ reply_of self.old ++ (whole_machine (book_of self.old) (chars line.now)).1) }
        ensures err { OnErr result ((book_of self.new ≡ book_of self.old)
            × (reply_of self.new ≡ reply_of self.old)) }
    {
        self.replies.extend_from_slice(self.last.as_bytes())?;
        self.last.clear();
        self.step(alloc, line)
    }

    // Answers a line into the memory of the last reply.
    fn step(&mut self, alloc: Global, line: &str) -> Result<(), OutOfMemory>
        ensures book { OnOk result
            (book_of self.new ≡ (whole_machine (book_of self.old) (chars line.now)).0) }
        ensures last { OnOk result (string_bytes self.new.last
            ≡ (whole_machine (book_of self.old) (chars line.now)).1) }
        ensures replies { self.new.replies.items ≡ self.old.replies.items }
        ensures err { OnErr result ((book_of self.new ≡ book_of self.old)
            × (string_bytes self.new.last ≡ [])) }
    {
        let last = mem::replace(&mut self.last, String::new(alloc));
        self.last = reply_to_text(alloc, &mut self.book, line, last)?;
        Ok(())
    }

    /// Copies the reply that is kept to the front of `out`, and tells its length. The status is OK, or NO_ROOM where it
    /// doesn't fit.
    pub fn copy(&self, out: &mut [u8], told: &mut usize) -> u8
        ensures { Copied (reply_of self.now) out.old out.new told.new result }
    {
        let replies = self.replies.as_slice();
        let last = self.last.as_bytes();
        let count = replies.len() + last.len();
        *told = count;
        if out.len() < count {
            return NO_ROOM;
        }
        out[..replies.len()].copy_from_slice(replies);
        out[replies.len()..count].copy_from_slice(last);
        OK
    }

    // What a call that answered tells of the reply; where memory ran out its length alone.
    fn tell(&self, done: Result<(), OutOfMemory>, out: &mut [u8], told: &mut usize) -> u8
        ensures ok { OnOk done (Copied (reply_of self.now) out.old out.new told.new result) }
        ensures err { OnErr done ((result ≡ 1) × (told.new ≡ length (reply_of self.now))
            × (out.new ≡ out.old)) }
    {
        if done.is_ok() {
            return self.copy(out, told);
        }
        *told = self.replies.len() + self.last.len();
        NO_MEMORY
    }
}

impl Session {
    /// Answers a line, and tells the reply.
    pub fn answer(&mut self, alloc: Global, line: &[u8], out: &mut [u8], told: &mut usize) -> u8
        ensures { OfSession
            (λ a b. Answers (line_text line.now ∷ []) a b out.old out.new told.new result)
            (NotOpen out.old out.new told.new result) self.old self.new }
    {
        let Some(book) = &mut self.opened else {
            return not_open(told);
        };
        let done = book.answer(alloc, line);
        book.tell(done, out, told)
    }

    /// Answers the lines of the bytes, and tells the replies.
    pub fn run(&mut self, alloc: Global, bytes: &[u8], out: &mut [u8], told: &mut usize) -> u8
        ensures { OfSession
            (λ a b. Answers (texts_of bytes.now) a b out.old out.new told.new result)
            (NotOpen out.old out.new told.new result) self.old self.new }
    {
        let Some(book) = &mut self.opened else {
            return not_open(told);
        };
        let done = book.run(alloc, bytes);
        book.tell(done, out, told)
    }

    /// Tells the reply that is kept.
    pub fn copy(&self, out: &mut [u8], told: &mut usize) -> u8
        ensures { OfOpen (λ a _. Copied (reply_of a) out.old out.new told.new result)
            (NotOpen out.old out.new told.new result) self.now.opened self.now.opened }
    {
        match &self.opened {
            Some(book) => book.copy(out, told),
            None => not_open(told),
        }
    }
}

/// Tells that no book is open.
pub fn not_open(told: &mut usize) -> u8
    ensures status { result ≡ 3 }
    ensures told { told.new ≡ 0 }
{
    *told = 0;
    NOT_OPEN
}

/// The status for a book that isn't made.
fn status_of(e: &BookError) -> u8
    ensures { result ≡ error_status e.now }
{
    match e {
        BookError::InvalidTimezone => INVALID_TIMEZONE,
        BookError::InvalidLocale => INVALID_LOCALE,
        BookError::InvalidLanguage => INVALID_LANGUAGE,
        _ => NO_MEMORY,
    }
}
