ghost use Rattle.std.specs.Prelude.{◌≡◌, ◌≢◌, ◌⊎◌, ◌+◌, ◌<◌, ◌≤◌, [], true, false, None, Some, Err, IsSome, chars, take, drop, length, vec_len, Contains, IfOk, IfErr, OnOk, OnErr, MatchOption, MatchResult};
ghost use Rattle.ic_laws.specs.Lines.{line_text};
ghost use Rattle.ic_lines.specs.Bytes.{IfTold, HasFault, ShowsEnd};
ghost use Rattle.ic_lines.specs.Reading.{GivesHeld, GivesLine, GoesOn, HasToAsk, IsFirstLineFeed, Reading, SeesEnd, TakesAfter, TakesLine, TakesRead, budget, first_line, has_line_feed, holds_line, most_turns, passed, unread, without_return};

use crate::{Line, RunError, Source};
use ic_laws::{OutOfMemory, Text};
use memchr::memchr;
use std::alloc::Global;
use std::marker::Model;

/// The bytes that one read is handed room for.
const READ_SIZE: usize = 4096;

/// The reads that give at least one byte, after which a reader gives up.
const MOST_TURNS: u64 = 1 << 32;

/// Takes bytes from a source and gives them out as lines.
pub struct LineReader {
    alloc: Global,
    bytes: Vec<u8>,
    /// Where the next line begins.
    start: usize,
    /// Up to where there is no line feed from `start` on.
    scanned: usize,
    ended: bool,
    turns: u64,
}

impl Drop for LineReader {
    fn drop(self) {
        let Self {
            alloc,
            bytes,
            start: _,
            scanned: _,
            ended: _,
            turns: _,
        } = self;
        drop(alloc);
        drop(bytes);
    }
}

impl Model for LineReader {
    ghost use Rattle.std.specs.Prelude.{◌≡◌, ◌-◌, ◌≤◌, false, drop, take, vec_len};
    ghost use Rattle.ic_lines.specs.Reading.{Reading, has_line_feed, most_turns};

    ghost Value = { Reading };

    ghost view = { λ r. record { held = drop r.start r.bytes.items; ended = r.ended; turns = r.turns } };

    ghost invariant = { λ r. (r.start ≤ r.scanned) × (r.scanned ≤ vec_len r.bytes) × (r.turns ≤ most_turns)
        × (has_line_feed (take (r.scanned - r.start) (drop r.start r.bytes.items)) ≡ false) };
}

impl LineReader {
    /// A reader that holds no byte.
    pub fn new(alloc: Global) -> LineReader
        ensures { result ≡ record { held = []; ended = false; turns = 0 } }
    {
        LineReader {
            alloc,
            bytes: Vec::new(alloc),
            start: 0,
            scanned: 0,
            ended: false,
            turns: 0,
        }
    }

    /// The next line; None exactly at the end, and from then on. It reads only where it holds no whole line, each
    /// time into 4,096 bytes, and in no later call once it saw the end. A line that isn't UTF-8 is given as the
    /// empty line.
    ///
    /// `ReadFault` where a read failed, `TooManyTurns` after 2^32 reads of this reader that each gave a byte, both
    /// only where no whole line is held and no end was seen; `OutOfMemory`. After an error every byte that was taken
    /// and not given is still held.
    pub fn next_line<S: Source>(&mut self, source: &mut S) -> Result<Option<Line>, RunError>
        ensures line { IfOk result (λ line. IfTold (S.left source.old) (S.left source.new)
            (λ before now. GivesLine line (unread self.old before) (unread self.new now))) }
        ensures end { IfOk result (λ line. line ≡ None → self.new.ended ≡ true) }

        // It sees the end where the source has nothing left.
        ensures ends { self.old.ended ≡ false → IfTold (S.left source.old) (S.left source.new)
            (λ before now. self.new.ended ≡ true → now ≡ []) }

        // It saw the end in this call exactly where a read of this call showed it.
        ensures shown { SeesEnd self.old.ended self.new.ended
            (S.ended source.old) (S.ended source.new) }

        // It asks the source only where it has to, and no more once a line came; then it gives the line, or None at
        // the end, of what it holds, also where the source tells nothing.
        ensures unasked { Contains self.old.held 10 ⊎ (self.old.ended ≡ true) → source.new
            ≡ source.old }
        ensures taken { (asked : Reading) × TakesLine self.old asked (S.left source.old)
            (S.left source.new)
            × MatchResult result (λ line. GivesHeld line asked self.new) (λ e. self.new ≡ asked) }

        // What an error leaves, and when each comes.
        ensures kept { OnErr result (IfTold (S.left source.old) (S.left source.new)
            (λ before now. unread self.new now ≡ unread self.old before)) }
        ensures read_fault { result ≡ Err RunError.ReadFault
            → HasFault (S.faults source.old) (S.faults source.new) × HasToAsk self.new }
        ensures too_many { result ≡ Err RunError.TooManyTurns → (self.new.turns ≡ most_turns)
            × HasToAsk self.new }
        ensures no_write { result ≢ Err RunError.WriteFault }

        // Each turn took at least one byte.
        ensures turns { IfTold (S.left source.old) (S.left source.new)
            (λ before now. self.new.turns + length now ≤ self.old.turns + length before) }
        ensures counted { S.faults source.old ≤ S.faults source.new }
        ensures quiet { OnOk result (S.faults source.new ≡ S.faults source.old) }

        // Each line takes bytes of those held, or of those that the turns that are left can bring.
        ensures progress { IfOk result (λ line. IsSome line → budget self.new < budget self.old) }
    {
        if !self.find_line(source)? {
            return Ok(None);
        }
        let line = line_of(self.alloc, self.line())?;
        self.pass();
        Ok(Some(line))
    }

    /// Sees to it that the next line is held, and answers whether there is one: there is none exactly at the end, and from
    /// then on. It reads as `next_line` does, with the same errors. Every byte that was taken is held.
    pub fn find_line<S: Source>(&mut self, source: &mut S) -> Result<bool, RunError>
        ensures found { IfOk result (λ found. found ≡ holds_line self.new) }
        ensures none { IfOk result (λ found. found ≡ false → (self.new.held ≡ [])
            × (self.new.ended ≡ true)) }
        ensures kept { IfTold (S.left source.old) (S.left source.new)
            (λ before now. unread self.new now ≡ unread self.old before) }

        // What it sees of the end, and what it asks for.
        ensures ends { self.old.ended ≡ false → IfTold (S.left source.old) (S.left source.new)
            (λ before now. self.new.ended ≡ true → now ≡ []) }
        ensures shown { SeesEnd self.old.ended self.new.ended
            (S.ended source.old) (S.ended source.new) }
        ensures unasked { Contains self.old.held 10 ⊎ (self.old.ended ≡ true) → source.new
            ≡ source.old }
        ensures taken { TakesLine self.old self.new (S.left source.old) (S.left source.new) }

        // When each error comes.
        ensures read_fault { result ≡ Err RunError.ReadFault
            → HasFault (S.faults source.old) (S.faults source.new) × HasToAsk self.new }
        ensures too_many { result ≡ Err RunError.TooManyTurns → (self.new.turns ≡ most_turns)
            × HasToAsk self.new }
        ensures no_write { result ≢ Err RunError.WriteFault }

        ensures turns { IfTold (S.left source.old) (S.left source.new)
            (λ before now. self.new.turns + length now ≤ self.old.turns + length before) }
        ensures counted { S.faults source.old ≤ S.faults source.new }
        ensures quiet { OnOk result (S.faults source.new ≡ S.faults source.old) }
        ensures room { budget self.new ≤ budget self.old }
    {
        'reads: loop {
            if let Some(_) = self.line_feed() {
                return Ok(true);
            }
            if self.ended {
                return Ok(self.start < self.bytes.len());
            }
            self.fill(source)?;
        }
    }

    /// The line that it holds first, where it is held.
    pub fn line(&self) -> &str
        requires { holds_line self.now ≡ true }
        ensures given { GivesHeld (Some (chars result.now)) self.now (passed self.now) }
        ensures no_line_feed { has_line_feed (chars result.now) ≡ false }
    {
        text_of(self.line_bytes())
    }

    /// Passes over the line that it holds first.
    pub fn pass(&mut self)
        ensures { self.new ≡ passed self.old }
    {
        self.start = match first_line_feed(&self.bytes[self.scanned..]) {
            Some(place) => self.scanned + place + 1,
            None => self.bytes.len(),
        };
        self.scanned = self.start;
    }

    // The bytes of the line that it holds first, without its line feed and a carriage return before that.
    fn line_bytes(&self) -> &[u8]
        ensures { result.now ≡ first_line self.now.held }
    {
        match first_line_feed(&self.bytes[self.scanned..]) {
            Some(place) => cut_return(&self.bytes[self.start..self.scanned + place]),
            None => &self.bytes[self.start..],
        }
    }

    // Reads until it sees the end.
    pub(crate) fn fill_all<S: Source>(&mut self, source: &mut S) -> Result<(), RunError>
        ensures kept { IfTold (S.left source.old) (S.left source.new)
            (λ before now. unread self.new now ≡ unread self.old before) }
        ensures turns { IfTold (S.left source.old) (S.left source.new)
            (λ before now. self.new.turns + length now ≤ self.old.turns + length before) }
        ensures ends { self.old.ended ≡ false → IfTold (S.left source.old) (S.left source.new)
            (λ before now. self.new.ended ≡ true → now ≡ []) }
        ensures shown { SeesEnd self.old.ended self.new.ended
            (S.ended source.old) (S.ended source.new) }
        ensures ok { OnOk result (self.new.ended ≡ true) }
        ensures err { OnErr result (self.new.ended ≡ false) }
        ensures read_fault { result ≡ Err RunError.ReadFault
            → HasFault (S.faults source.old) (S.faults source.new) }
        ensures too_many { result ≡ Err RunError.TooManyTurns → self.new.turns ≡ most_turns }
        ensures no_write { result ≢ Err RunError.WriteFault }
        ensures counted { S.faults source.old ≤ S.faults source.new }
        ensures quiet { OnOk result (S.faults source.new ≡ S.faults source.old) }
    {
        'fills: while !self.ended {
            self.fill(source)?;
        }
        Ok(())
    }

    // The bytes that it holds.
    pub(crate) fn into_held(self) -> Vec<u8>
        ensures { result.items ≡ self.held }
    {
        let Self {
            alloc,
            mut bytes,
            start,
            scanned: _,
            ended: _,
            turns: _,
        } = self;
        drop(alloc);
        drop_front(&mut bytes, start);
        bytes
    }

    // How many of the bytes held stand before the first line feed.
    fn line_feed(&mut self) -> Option<usize>
        ensures same { self.new ≡ self.old }
        ensures found { MatchOption result (has_line_feed self.old.held ≡ false)
            (IsFirstLineFeed self.old.held) }
    {
        match first_line_feed(&self.bytes[self.scanned..]) {
            Some(place) => {
                self.scanned += place;
                Some(self.scanned - self.start)
            }
            None => {
                self.scanned = self.bytes.len();
                None
            }
        }
    }

    // Reads once more.
    fn fill<S: Source>(&mut self, source: &mut S) -> Result<(), RunError>
        requires { self.old.ended ≡ false }
        ensures kept { IfTold (S.left source.old) (S.left source.new)
            (λ before now. unread self.new now ≡ unread self.old before) }
        ensures turns { IfTold (S.left source.old) (S.left source.new)
            (λ before now. self.new.turns + length now ≤ self.old.turns + length before) }
        ensures ends { IfTold (S.left source.old) (S.left source.new)
            (λ before now. self.new.ended ≡ true → now ≡ []) }
        ensures shown { SeesEnd self.old.ended self.new.ended
            (S.ended source.old) (S.ended source.new) }
        ensures taken { TakesRead self.old self.new (S.left source.old) (S.left source.new) }
        ensures goes_on { OnOk result (GoesOn self.old self.new) }
        ensures err { OnErr result ((self.new.held ≡ self.old.held) × (self.new.ended ≡ false)) }
        ensures room { budget self.new ≤ budget self.old }
        ensures read_fault { result ≡ Err RunError.ReadFault
            → HasFault (S.faults source.old) (S.faults source.new) }
        ensures too_many { result ≡ Err RunError.TooManyTurns → self.new.turns ≡ most_turns }
        ensures no_write { result ≢ Err RunError.WriteFault }
        ensures counted { S.faults source.old ≤ S.faults source.new }
        ensures quiet { OnOk result (S.faults source.new ≡ S.faults source.old) }
    {
        if self.turns == MOST_TURNS {
            return Err(RunError::TooManyTurns);
        }
        drop_front(&mut self.bytes, self.start);
        self.scanned -= self.start;
        self.start = 0;
        let taken = read_more(source, &mut self.bytes)?;
        if taken == 0 {
            self.ended = true;
        } else {
            self.turns += 1;
        }
        Ok(())
    }
}

/// How many bytes stand before the first line feed; None where there is none.
pub fn first_line_feed(bytes: &[u8]) -> Option<usize>
    ensures { MatchOption result (has_line_feed bytes.now ≡ false) (IsFirstLineFeed bytes.now) }
{
    memchr(b'\n', bytes)
}

/// The bytes without a carriage return at their end.
pub fn cut_return(bytes: &[u8]) -> &[u8]
    ensures { result.now ≡ without_return bytes.now }
{
    let Some((last, front)) = bytes.split_last() else {
        return bytes;
    };
    if *last == b'\r' { front } else { bytes }
}

// The line of this text.
fn line_of(alloc: Global, text: &str) -> Result<Line, OutOfMemory>
    requires { has_line_feed (chars text.now) ≡ false }
    ensures { IfOk result (λ line. line ≡ chars text.now) }
{
    let text = Text::from_str(alloc, text)?;
    Ok(Line::without_line_feed(text))
}

/// The text of a line's bytes, the empty one where they aren't UTF-8.
#[tactic(auto, using(crate::proofs::LineLemmas::line_text_utf8, crate::proofs::LineLemmas::line_text_other))]
pub fn text_of(bytes: &[u8]) -> &str
    ensures { chars result.now ≡ line_text bytes.now }
{
    str::from_utf8(bytes).unwrap_or("")
}

// Drops so many bytes from the front.
fn drop_front(bytes: &mut Vec<u8>, count: usize)
    requires { count ≤ vec_len bytes.old }
    ensures { bytes.new.items ≡ drop count bytes.old.items }
{
    // A long line that isn't whole yet stays where it is.
    if count == 0 {
        return;
    }
    let len = bytes.len();
    bytes.copy_within(count..len, 0);
    bytes.truncate(len - count);
}

// Reads after the bytes that are there, and answers how many came.
fn read_more<S: Source>(source: &mut S, bytes: &mut Vec<u8>) -> Result<usize, RunError>
    ensures ok { OnOk result (TakesAfter (drop (vec_len bytes.old) bytes.new.items) bytes.old.items
        bytes.new.items (S.left source.old) (S.left source.new)) }
    ensures end { IfOk result (λ n. n ≡ 0 → IfTold (S.left source.old) (S.left source.new)
        (λ before now. before ≡ [])) }
    ensures ok_len { IfOk result (λ n. (n ≤ READ_SIZE)
        × (vec_len bytes.new ≡ vec_len bytes.old + n)) }
    ensures err { OnErr result (bytes.new.items ≡ bytes.old.items) }
    ensures err_left { OnErr result (IfTold (S.left source.old) (S.left source.new)
        (λ before now. now ≡ before)) }
    ensures which { IfErr result (λ e. (e ≡ RunError.ReadFault) ⊎ (e ≡ RunError.OutOfMemory)) }
    ensures read_fault { result ≡ Err RunError.ReadFault
        → HasFault (S.faults source.old) (S.faults source.new) }
    ensures counted { S.faults source.old ≤ S.faults source.new }
    ensures quiet { OnOk result (S.faults source.new ≡ S.faults source.old) }
    ensures shown { ShowsEnd (S.ended source.old) (S.ended source.new) result READ_SIZE }
{
    let held = bytes.len();
    make_room(bytes)?;
    let Ok(taken) = source.read(&mut bytes[held..]) else {
        bytes.truncate(held);
        return Err(RunError::ReadFault);
    };
    bytes.truncate(held + taken);
    Ok(taken)
}

// Adds as many zero bytes as one read is handed.
fn make_room(bytes: &mut Vec<u8>) -> Result<(), OutOfMemory>
    ensures front { OnOk result (take (vec_len bytes.old) bytes.new.items ≡ bytes.old.items) }
    ensures len { OnOk result (vec_len bytes.new ≡ vec_len bytes.old + READ_SIZE) }
    ensures err { OnErr result (bytes.new.items ≡ bytes.old.items) }
{
    let len = bytes.len() + READ_SIZE;
    bytes.resize(len, 0)?;
    Ok(())
}
