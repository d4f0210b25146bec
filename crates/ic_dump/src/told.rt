//! The bytes of lines.
ghost use Rattle.std.specs.Prelude.{◌≡◌, ◌++◌, IfOk, OnOk, chars, flat_map, string_bytes};
ghost use Rattle.ic_run.specs.Translate.{ended_line};

use ic_laws::OutOfMemory;
use ic_laws::scan::{push_char, push_text};
use ic_lines::Line;
use std::alloc::Global;

/// Lines, each with a line feed. Only memory can be missing.
pub(crate) fn told(alloc: Global, lines: &[Line]) -> Result<String, OutOfMemory>
    ensures { IfOk result (λ text. chars (string_bytes text) ≡ flat_map ended_line lines.now) }
{
    let mut text = String::with_capacity(alloc, room_for(lines))?;
    for line in lines {
        push_line(&mut text, line)?;
    }
    Ok(text)
}

/// The bytes that they take.
fn room_for(lines: &[Line]) -> usize {
    let mut room: usize = 0;
    for line in lines {
        room = room
            .saturating_add(line.text().as_str().len())
            .saturating_add(1);
    }
    room
}

/// Appends a line with its line feed.
fn push_line(text: &mut String, line: &Line) -> Result<(), OutOfMemory>
    ensures { OnOk result (chars (string_bytes text.new) ≡ chars (string_bytes text.old)
        ++ ended_line line.now) }
{
    push_text(text, line.text().as_str())?;
    push_char(text, '\n')
}
