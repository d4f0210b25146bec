//! What a dump does, of books alone.
ghost use Rattle.ic_dump.specs.Rebuilds.{LinesRebuild};
ghost use Rattle.ic_dump.specs.Refused.{TreesHaveLines};

/// In every valid book that has no cause against it, the lines of a dump rebuild its skeleton from a new book in en, en and UTC,
/// whenever that is made: each is accepted in its turn. The book has fewer names than there are numerals for passing sheets, as
/// all that is in memory has; and no English word for an error value ends with a blank.
pub fn law_lines_rebuild()
    ensures { LinesRebuild }
{}

/// A book all of whose formulas read has no cause against it: no tree is refused.
pub fn law_trees_have_lines()
    ensures { TreesHaveLines }
{}
