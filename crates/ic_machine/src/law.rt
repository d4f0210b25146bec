ghost use Rattle.std.specs.Prelude.{List, ℕ};
ghost use Rattle.ic_grid.specs.Shape.{celled};
ghost use Rattle.ic_machine.specs.Alike.{HoldsAlike};
ghost use Rattle.ic_machine.specs.Binds.{AddedIsMeant, CopiedIsMeant, CopiedMeansSame};
ghost use Rattle.ic_machine.specs.Binds.{DefinedIsMeant, InsertedIsMeant};
ghost use Rattle.ic_machine.specs.Binds.{DeletedIsNotMeant, NewIsMeant};
ghost use Rattle.ic_machine.specs.Binds.{RenamedByNameIsMeant, RenamedIsMeant, UpdatedIsMeant};
ghost use Rattle.ic_machine.specs.Book.{Book};
ghost use Rattle.ic_machine.specs.Command.{Command, action};
ghost use Rattle.ic_machine.specs.Content.{content_of, held};
ghost use Rattle.ic_machine.specs.Core.{FormulaIsStepped, IsSteppedAs, core_command};
ghost use Rattle.ic_machine.specs.Extended.{CopiedIsOver, CopiedTextStays, ReferenceIsWritten};
ghost use Rattle.ic_machine.specs.Extended.{ExtendedIsSame, ExtendedIsTyped, ExtendedIsWritten};
ghost use Rattle.ic_machine.specs.FormattedLaws.{DateIsCounted, FormattedIsRuled, RuledIsFormatted};
ghost use Rattle.ic_machine.specs.Kept.{CoreIsValid, CoreStaysValid, KeepsValid, KeepsValidIf};
ghost use Rattle.ic_machine.specs.Kept.{gives_amount, gives_id};
ghost use Rattle.ic_machine.specs.Kinds.{IsLeftBy, LeavesSo};
ghost use Rattle.ic_machine.specs.Laws.{BadLineStays, CounterpartsAreBack, NumbersAreSmall};
ghost use Rattle.ic_machine.specs.Laws.{CopyIsNamedFirst, CoreIsRead, CoreLinesAreCore};
ghost use Rattle.ic_machine.specs.Laws.{NewIsNamedFirst, RefusedStays};
ghost use Rattle.ic_machine.specs.Laws.{RunsLeaveSame, RunsTellSame};
ghost use Rattle.ic_machine.specs.Placed.{FormulaIsPlaced, PlacedAlone};
ghost use Rattle.ic_machine.specs.Readers.{LeavesIf, is_reader};
ghost use Rattle.ic_machine.specs.Retyped.{RetypedStays};
ghost use Rattle.ic_machine.specs.Scene.{KeepsSceneIf, leaves_names};
ghost use Rattle.ic_machine.specs.Step.{step};
ghost use Rattle.ic_machine.specs.TranslationLaws.{PlainErrorsEndBodies, TranslationKeepsBook};
ghost use Rattle.ic_machine.specs.subjects.Arrays.{arrays_step};
ghost use Rattle.ic_machine.specs.subjects.Definitions.{definition_step};
ghost use Rattle.ic_machine.specs.subjects.Extending.{extending_step};
ghost use Rattle.ic_machine.specs.subjects.Layout.{layout_step};
ghost use Rattle.ic_machine.specs.subjects.Notation.{notation_step};
ghost use Rattle.ic_machine.specs.subjects.Reading.{reading_step};
ghost use Rattle.ic_machine.specs.subjects.Sheets.{sheet_step};
ghost use Rattle.ic_machine.specs.subjects.Styles.{style_step};
ghost use Rattle.ic_machine.specs.subjects.Tabs.{tab_step};
ghost use Rattle.ic_machine.specs.subjects.Writing.{writing_step};

/// A line that is no command of a table changes nothing, and is answered by `BadLine`.
pub fn law_bad_line_stays()
    ensures { BadLineStays }
{}

/// A command that is refused changes nothing, and is answered by its refusal.
pub fn law_refused_stays()
    ensures { RefusedStays }
{}

/// What a command leaves of a book is what its kind says: the book itself; another sheet of the same id and name in the place
/// of one, and maybe other styles; another zone or theme; another locale or language; or other sheets or definitions. All else
/// is what it was.
pub fn law_kinds_tell_changes()
    ensures { (book : Book) (command : Command)
        → LeavesSo (IsLeftBy (action command)) book (step book command) }
{}

/// A command that only reads leaves the book as it was.
pub fn law_readers_change_nothing()
    ensures { (book : Book) (command : Command)
        → LeavesIf (is_reader command) book (step book command) }
{}

/// A command that changes neither the list of sheets nor that of definitions leaves what formulas can mention.
pub fn law_cells_leave_names()
    ensures { (book : Book) (command : Command)
        → KeepsSceneIf (leaves_names command) book (step book command) }
{}

/// The number in the name that a new sheet or a copy gets is at most one more than there are sheets.
pub fn law_numbers_are_small()
    ensures { NumbersAreSmall }
{}

/// The index of a formula that is written is the first place of an equal one in the pool with it: where the pool has an equal
/// one it stays as it is, and else the formula is put at its end. No other index and no other pool are that.
pub fn law_formula_is_placed()
    ensures placed { FormulaIsPlaced }
    ensures alone { PlacedAlone }
{}

/// In a valid book the number in the name that a new sheet or a copy gets is the least from 1 that gives a free name: no
/// sheet had that name, and with each smaller number the name agrees with that of some sheet.
pub fn law_names_are_first_free()
    ensures new { NewIsNamedFirst }
    ensures copy { CopyIsNamedFirst }
{}

/// A cell, with the texts of the shared strings, is a content: of the same shape and style, and emptied, with another value
/// or area, as a cell of a spill and as the formula of an array it is the content that was so changed or made.
pub fn law_cells_are_contents()
    ensures { (strings : List (List ℕ)) → HoldsAlike (content_of strings) celled held }
{}

/// Seen by its core, a step of the whole machine is that of the identity machine, for each command that this has, except one
/// that writes a formula: the same core is left and the same fields are answered, or the same refusal.
pub fn law_core_is_stepped()
    ensures { (book : Book) (command : Command) → IsSteppedAs book command (core_command command) }
{}

/// A run of lines by the identity machine is a run over any machine, that of the core: what is left, and the replies.
pub fn law_runs_shared()
    ensures left { RunsLeaveSame }
    ensures told { RunsTellSame }
{}

/// The command that a core line is by the table of all commands is the identity machine's, and none where the identity machine has
/// none. Each line that is a command of the identity machine is that command, and so a core line; and no two of these are one.
pub fn law_core_lines_are_core()
    ensures lines { CoreLinesAreCore }
    ensures all { CoreIsRead }
    ensures back { CounterpartsAreBack }
{}

/// So is one that writes a formula, where merged cells and arrays don't forbid it and no sign begins its text.
pub fn law_formula_is_stepped()
    ensures { FormulaIsStepped }
{}

/// A step of each command keeps what always holds of a book. The id that a sheet is inserted with, where one is given, and
/// the number that is written into a cell are such as a word can say.
pub fn law_book_stays_valid()
    ensures notation { KeepsValid notation_step }
    ensures writing { KeepsValidIf gives_amount writing_step }
    ensures reading { KeepsValid reading_step }
    ensures extending { KeepsValid extending_step }
    ensures styles { KeepsValid style_step }
    ensures layout { KeepsValid layout_step }
    ensures tabs { KeepsValid tab_step }
    ensures sheets { KeepsValidIf gives_id sheet_step }
    ensures definitions { KeepsValid definition_step }
    ensures arrays { KeepsValid arrays_step }
{}

/// The core of a valid book is a valid book of the identity machine; and so is that of the book which an accepted command leaves
/// that the identity machine has, too, and that writes no formula: its sheets, its definitions and all formulas of its cells
/// are as they must be.
pub fn law_core_stays_valid()
    ensures core { CoreIsValid }
    ensures stays { CoreStaysValid }
{}

/// In a valid book, after a sheet was added, put in, copied or renamed or a definition was added, what dangled and is bound then
/// means just that sheet or that definition. After one was deleted, what meant it means the one of an agreeing name for all
/// sheets, or dangles. Each other mention is what it was. Mention for mention, the formulas of a copy mean what their sources
/// mean, but for what meant the sheet and what a definition that is copied with it could mean: that means the copy. After a
/// definition was updated, what dangled and is bound then means it, and what meant a definition, in a cell or in another body,
/// means the same one.
pub fn law_bound_is_named()
    ensures added { AddedIsMeant }
    ensures new { NewIsMeant }
    ensures inserted { InsertedIsMeant }
    ensures copied { CopiedIsMeant }
    ensures copy { CopiedMeansSame }
    ensures renamed { RenamedIsMeant }
    ensures by_name { RenamedByNameIsMeant }
    ensures defined { DefinedIsMeant }
    ensures deleted { DeletedIsNotMeant }
    ensures updated { UpdatedIsMeant }
{}

/// What a cell shows, typed into it again, leaves in it what it held: a value of the same kind, or a formula with the same
/// tree, unless the formula's text doesn't read or one of its names is a word of the language in force. It is no cell of a
/// spill.
pub fn law_retyped_stays()
    ensures { RetypedStays }
{}

/// A cell's formula that is extended to another cell is written there as it is, with the word for a lost reference in the
/// place of each reference that leaves the sheet there. It is typed there as that tree, with the same offsets and the same
/// fixed positions, and so as the same tree where no reference leaves the sheet, unless a name is a word of the language
/// in force.
pub fn law_extended_is_same()
    ensures same { ExtendedIsSame }
    ensures written { ExtendedIsWritten }
    ensures typed { ExtendedIsTyped }
{}

/// What is written of a reference in a cell, whatever the other references of its formula do: where it lies in the sheet, it
/// is read as the same reference; where it leaves the sheet, it is the word of the error value REF.
pub fn law_reference_is_written()
    ensures { ReferenceIsWritten }
{}

/// A formula that was copied from a cell reads there as a tree. What it is extended to is written of that tree, bound and
/// spelled, with its lost references, and reads so at the target, unless a name is a word of the language in force. A
/// copied text that is no formula stays.
pub fn law_copied_is_extended()
    ensures formula { CopiedIsOver }
    ensures text { CopiedTextStays }
{}

/// Lines that are translated are each accepted in their turn by every book that is the same as the one before and has the
/// notation that is asked for, and leave a book that is the same as the one after the lines that they were translated
/// from. None of these can't be translated, the book that they were translated from is valid, its tables have the notation,
/// and no definition is updated to a body that ends with a blank in it. Only an error word that ends with a blank can be at
/// the end of such a body.
pub fn law_translation_keeps_book()
    ensures keeps { (locale language : List ℕ) → TranslationKeepsBook locale language }
    ensures plain { (locale language : List ℕ) → PlainErrorsEndBodies locale language }
{}

/// By any locale and any code, what an amount is shown as by the machine, which tries the kinds of codes one after another,
/// is what shows it by the rules, and nothing else is. The date that is shown of day n is 30 December 1899 and n days,
/// counted one by one.
pub fn law_formatted_by_rules()
    ensures answered { RuledIsFormatted }
    ensures ruled { FormattedIsRuled }
    ensures dates { DateIsCounted }
{}
