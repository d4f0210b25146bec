//! What the deletion of a sheet or a definition does to what is listed for it.
ghost use Rattle.ic_audit.specs.Gone.{NameIsGone, SheetIsGone};

/// After an accepted deletion of a sheet, in a valid book, the mentions of that sheet dangle, and so do the words that stand
/// behind it. Each other mention in a remaining cell's formula or in a body is what it was, at its place. The cells and the
/// definitions with such mentions are among those that are listed for the sheet.
pub fn law_sheet_gone()
    ensures { SheetIsGone }
{}

/// After an accepted deletion of a definition, in a valid book, the words that meant it dangle; but where it was local to a
/// sheet and there is one of an agreeing name for all sheets, those that stand behind no sheet mean that one. Each other
/// mention in a cell's formula or in a remaining body is what it was, at its place. The cells and the definitions with such
/// words are among those that are listed for the definition.
pub fn law_name_gone()
    ensures { NameIsGone }
{}
