//! The command lines that are made from a seed.
ghost use Rattle.std.specs.Prelude.{◌≡◌, ◌<◌, IfOk, OnOk, string_bytes};
ghost use Rattle.ic_run.specs.Make.{IsPlainLine, code_at, drawn, made_command, made_of_kind, made_text, next_state};

use ic_laws::{OutOfMemory, Text};
use ic_lines::Line;
use std::alloc::Global;

/// A command of a made line. Indexes and places count from 0, rows, columns and the numbers of lines from 1.
#[derive(Drop)]
pub enum MadeCommand {
    /// Adds the sheet `S` and the line's number.
    AddSheet {
        number: u32,
    },
    /// Gives the sheet at an index the name `N` and the line's number.
    RenameSheet {
        index: u32,
        number: u32,
    },
    /// Moves the sheet at an index.
    MoveSheet {
        index: u32,
        target: u32,
    },
    /// Writes the sum of one cell of the sheet `S` and a number, times a factor.
    WriteSum {
        sheet: u32,
        row: u32,
        column: u32,
        number: u32,
        factor: u32,
    },
    /// Writes the sum of `tax` and a cell in column B of this row.
    WriteTax {
        sheet: u32,
        row: u32,
        column: u32,
        other: u32,
    },
    /// Defines `tax`.
    NameTax,
    /// Sets the locale by its place among five.
    SetLocale {
        place: u32,
    },
    /// Sets the language by its place among five.
    SetLanguage {
        place: u32,
    },
}

/// The state that a draw leaves is the state before it times `MULTIPLIER`, plus `INCREMENT`, by 2^64.
const MULTIPLIER: u64 = 6364136223846793005;

const INCREMENT: u64 = 1442695040888963407;

/// The lowest bits of a state, of which a draw takes none.
const DROPPED_BITS: u32 = 33;

/// A generator of numbers.
#[derive(Drop)]
pub struct Generator {
    /// The seed, or what the last draw left.
    pub state: u64,
}

impl Generator {
    /// The line of this number, which is made by the next draws. Only memory can be missing.
    pub fn next_line(&mut self, alloc: Global, number: u32) -> Result<Line, OutOfMemory>
        requires { 0 < number }
        ensures line { IfOk result (λ line. line
            ≡ made_text (made_command number self.old.state).0) }
        ensures state { OnOk result (self.new.state
            ≡ (made_command number self.old.state).1) }
    {
        let command = self.next_command(number);
        command.to_line(alloc)
    }

    /// The next command: its kind is drawn first.
    fn next_command(&mut self, number: u32) -> MadeCommand
        requires { 0 < number }
        ensures command { result ≡ (made_command number self.old.state).0 }
        ensures state { self.new.state ≡ (made_command number self.old.state).1 }
    {
        let kind = self.draw(8);
        self.command_of_kind(kind, number)
    }

    /// The command of this kind.
    fn command_of_kind(&mut self, kind: u32, number: u32) -> MadeCommand
        requires { 0 < number }
        ensures command { result ≡ (made_of_kind kind number self.old.state).0 }
        ensures state { self.new.state ≡ (made_of_kind kind number self.old.state).1 }
    {
        match kind {
            0 => MadeCommand::AddSheet { number },
            1 => MadeCommand::RenameSheet {
                index: self.draw(6),
                number,
            },
            2 => MadeCommand::MoveSheet {
                index: self.draw(6),
                target: self.draw(6),
            },
            3 => MadeCommand::WriteSum {
                sheet: self.draw(4),
                row: 1 + self.draw(20),
                column: 1 + self.draw(8),
                number: 1 + self.draw(number),
                factor: self.draw(100),
            },
            4 => MadeCommand::WriteTax {
                sheet: self.draw(4),
                row: 1 + self.draw(20),
                column: 1 + self.draw(8),
                other: 1 + self.draw(9),
            },
            5 => MadeCommand::NameTax,
            6 => MadeCommand::SetLocale {
                place: self.draw(5),
            },
            _ => MadeCommand::SetLanguage {
                place: self.draw(5),
            },
        }
    }

    /// What the next draw gives.
    fn draw(&mut self, below: u32) -> u32
        requires { 0 < below }
        ensures value { result ≡ drawn 1 below self.old.state }
        ensures below { result < below }
        ensures state { self.new.state ≡ next_state self.old.state }
    {
        self.step();
        ((self.state >> DROPPED_BITS) % u64::from(below)) as u32
    }

    /// The next state.
    #[tactic(auto, unfolding(crate::specs::Make::next_state))]
    fn step(&mut self)
        ensures { self.new.state ≡ next_state self.old.state }
    {
        self.state = self.state.wrapping_mul(MULTIPLIER).wrapping_add(INCREMENT);
    }
}

impl MadeCommand {
    /// Its line.
    fn to_line(&self, alloc: Global) -> Result<Line, OutOfMemory>
        ensures { IfOk result (λ line. line ≡ made_text self.now) }
    {
        let text = self.to_text(alloc)?;
        Ok(whole_line(text))
    }

    /// Its text.
    #[tactic(auto, unfolding(crate::specs::Make::made_text))]
    fn to_text(&self, alloc: Global) -> Result<String, OutOfMemory>
        ensures { IfOk result (λ text. string_bytes text ≡ made_text self.now) }
    {
        match self {
            MadeCommand::AddSheet { number } => Ok(format!(in alloc; "add_sheet\tS{number}")?),
            MadeCommand::RenameSheet { index, number } => {
                Ok(format!(in alloc; "rename_sheet_by_index\t{index}\tN{number}")?)
            }
            MadeCommand::MoveSheet { index, target } => {
                Ok(format!(in alloc; "move_sheet\t{index}\t{target}")?)
            }
            MadeCommand::WriteSum {
                sheet,
                row,
                column,
                number,
                factor,
            } => Ok(format!(in alloc;
                "update_cell_with_formula\t{sheet}\t{row}\t{column}\t=SUM('S{number}'!B2)*{factor}"
            )?),
            MadeCommand::WriteTax {
                sheet,
                row,
                column,
                other,
            } => Ok(format!(in alloc;
                "update_cell_with_formula\t{sheet}\t{row}\t{column}\t=tax+B{other}"
            )?),
            MadeCommand::NameTax => Ok(String::from_str(
                alloc,
                "new_defined_name\ttax\t-\tSheet1!$A$1",
            )?),
            MadeCommand::SetLocale { place } => {
                Ok(format!(in alloc; "set_locale\t{}", code_at(*place))?)
            }
            MadeCommand::SetLanguage { place } => {
                Ok(format!(in alloc; "set_language\t{}", code_at(*place))?)
            }
        }
    }
}

/// The code of a locale or a language by its place among five.
fn code_at(place: u32) -> &'static str
    ensures { result.now ≡ code_at place }
{
    match place {
        0 => "en",
        1 => "es",
        2 => "fr",
        3 => "de",
        _ => "it",
    }
}

/// The text as a line, which it is.
fn whole_line(text: String) -> Line
    requires { IsPlainLine (string_bytes text) }
    ensures { result ≡ string_bytes text }
{
    match Line::new(Text::from(text)) {
        Some(line) => line,
        None => unreachable!(),
    }
}
