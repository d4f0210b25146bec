//! One row: its words, and its answer, which comes piece by piece.
use ic_laws::{OutOfMemory, Text};
use ic_lines::escape;
use ic_tables::Tables;
use std::alloc::Global;

/// A row that is being answered. What is put goes behind what was put before. Where a word is not what a call asks for,
/// or memory runs out, the row fails: it goes on with another value, and its answer is `bad` in the end. So a call has no
/// error to hand on.
pub struct Row<'w> {
    pub alloc: Global,
    pub tables: &'w Tables,
    /// The name of the call, its first word.
    pub name: &'w str,
    /// Its words; the name stands at 0, until words are left out.
    pub words: &'w [Text],
    out: String,
    answered: bool,
    failed: bool,
}

impl Drop for Row<'_> {
    fn drop(self) {
        let Self {
            alloc: _,
            tables: _,
            name: _,
            words: _,
            out,
            answered: _,
            failed: _,
        } = self;
        drop(out);
    }
}

impl<'w> Row<'w> {
    /// A row that isn't answered yet.
    pub fn new(alloc: Global, tables: &'w Tables, words: &'w [Text]) -> Row<'w> {
        let name = match words.first() {
            Some(name) => name.as_str(),
            None => "",
        };
        Row {
            alloc,
            tables,
            name,
            words,
            out: String::new(alloc),
            answered: false,
            failed: false,
        }
    }

    /// The answer.
    pub fn answer(&self) -> &str {
        if self.answered && !self.failed {
            self.out.as_str()
        } else {
            "bad"
        }
    }

    /// It is no call with its words, or memory ran out.
    pub fn bad(&mut self) {
        self.failed = true;
    }

    /// It fails unless this was done.
    pub fn done(&mut self, done: bool) {
        if !done {
            self.bad();
        }
    }

    /// Leaves its first words out from here on.
    pub fn skip(&mut self, count: usize) {
        match self.words.get(count..) {
            Some(rest) => self.words = rest,
            None => self.bad(),
        }
    }

    /// The word at a place; the empty text where there is none.
    pub fn word(&self, at: usize) -> &'w str {
        match self.words.get(at) {
            Some(text) => text.as_str(),
            None => "",
        }
    }

    /// A copy of a text.
    pub fn text(&mut self, text: &str) -> Text {
        Text::from(self.string(text))
    }

    /// A copy of a text, to hand over.
    pub fn string(&mut self, text: &str) -> String {
        match String::from_str(self.alloc, text) {
            Ok(text) => text,
            Err(_) => {
                self.bad();
                String::new(self.alloc)
            }
        }
    }

    /// The number at a place.
    pub fn size(&mut self, at: usize) -> usize {
        match self.word(at).parse::<usize>() {
            Ok(n) => n,
            Err(_) => {
                self.bad();
                0
            }
        }
    }

    /// The number at a place, with a sign or without.
    pub fn int(&mut self, at: usize) -> i32 {
        match self.word(at).parse::<i32>() {
            Ok(n) => n,
            Err(_) => {
                self.bad();
                0
            }
        }
    }

    /// The number of 32 bits at a place.
    pub fn index(&mut self, at: usize) -> u32 {
        match self.word(at).parse::<u32>() {
            Ok(n) => n,
            Err(_) => {
                self.bad();
                0
            }
        }
    }

    /// The id of a sheet, or `none`.
    pub fn scope(&mut self, at: usize) -> Option<u32> {
        if self.word(at) == "none" {
            None
        } else {
            Some(self.index(at))
        }
    }

    /// A text as it is.
    pub fn put(&mut self, text: &str) {
        self.answered = true;
        if self.out.push_str(text).is_err() {
            self.bad();
        }
    }

    /// A tab, before the next field.
    pub fn tab(&mut self) {
        self.put("\t");
    }

    /// `none`.
    pub fn none(&mut self) {
        self.put("none");
    }

    /// A text as it is written in a word.
    pub fn put_text(&mut self, text: &str) {
        match escape(self.alloc, text) {
            Ok(word) => self.put(word.as_str()),
            Err(_) => self.bad(),
        }
    }

    /// A text that took memory, or `none`.
    pub fn put_found(&mut self, text: Result<Option<String>, OutOfMemory>) {
        match text {
            Ok(Some(text)) => self.put_text(text.as_str()),
            Ok(None) => self.none(),
            Err(_) => self.bad(),
        }
    }

    /// Texts, with a tab after each.
    pub fn put_each(&mut self, texts: &[&Text]) {
        for text in texts {
            self.put_text(text.as_str());
            self.tab();
        }
    }

    /// `true` or `false`.
    pub fn put_bool(&mut self, holds: bool) {
        self.put(if holds { "true" } else { "false" });
    }

    /// `true` or `false`, where this is the name of the call.
    pub fn holds(&mut self, name: &str, holds: bool) {
        if self.name == name {
            self.put_bool(holds);
        }
    }

    /// A text, where this is the name of the call.
    pub fn finds(&mut self, name: &str, text: &str) {
        if self.name == name {
            self.put_text(text);
        }
    }

    /// A number.
    pub fn put_number(&mut self, n: i128) {
        self.answered = true;
        if write!(self.out, "{n}").is_err() {
            self.bad();
        }
    }

    /// The id of a sheet, or `none`.
    pub fn put_scope(&mut self, scope: Option<u32>) {
        match scope {
            Some(id) => self.put_number(i128::from(id)),
            None => self.none(),
        }
    }

    /// A tab and a number.
    pub fn put_field(&mut self, n: i32) {
        self.tab();
        self.put_number(i128::from(n));
    }

    /// A text that took memory.
    pub fn put_made<E: Drop>(&mut self, text: Result<String, E>) {
        match text {
            Ok(text) => self.put_text(text.as_str()),
            Err(_) => self.bad(),
        }
    }

    /// An error: its variant and its text.
    pub fn put_error<E: Drop>(&mut self, name: &str, text: Result<String, E>) {
        self.put("error\t");
        self.put(name);
        self.tab();
        self.put_made(text);
    }
}
