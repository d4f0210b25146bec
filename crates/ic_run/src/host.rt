//! What a program takes of the process that it runs in: its words, and the moment.
ghost use Rattle.std.specs.Prelude.{◌≡◌, ◌⊎◌, IfErr};

use jiff::Timestamp;
use std::time::SystemTime;
use std::{env, io};

/// The status where memory runs out.
const NO_MEMORY: u8 = 6;

/// The status for words that are no stated form.
const USAGE: u8 = 1;

/// The words after the program's name. The error is the status to end with: 6 where memory ran out, 1 where one of the words
/// isn't UTF-8.
pub fn words_given(rt: &HostRuntime) -> Result<Vec<String>, u8>
    ensures { IfErr result (λ status. (status ≡ 1) ⊎ (status ≡ 6)) }
{
    match words_read(rt) {
        Ok(words) => Ok(words),
        Err(e) => Err(status_without_words(e.kind())),
    }
}

/// They as the system has them.
fn words_read(rt: &HostRuntime) -> io::Result<Vec<String>> {
    let mut words = Vec::new(rt.alloc());
    for word in env::args(rt)?.skip(1) {
        words.push(word)?;
    }
    Ok(words)
}

/// The status where they weren't read.
fn status_without_words(kind: io::ErrorKind) -> u8
    ensures { (result ≡ 1) ⊎ (result ≡ 6) }
{
    if kind == io::ErrorKind::OutOfMemory {
        NO_MEMORY
    } else {
        USAGE
    }
}

/// The moment by the clock, or the Unix epoch where it has none.
pub fn moment(rt: &HostRuntime) -> Timestamp {
    match SystemTime::now(rt) {
        Ok(now) => Timestamp::try_from(now).unwrap_or(Timestamp::UNIX_EPOCH),
        Err(_) => Timestamp::UNIX_EPOCH,
    }
}
