//! What the lines of one user are to the others.
ghost use Rattle.ic_share.specs.LeaveOut.{QuietLeavesNoTrace};
ghost use Rattle.ic_share.specs.Share.{OwnStays, SharedStaysKnown};

/// Of a user whose lines only ask, choose a language or are no command, all lines can be left out: every other line has the
/// same reply, the same book is left, and every other user has the same language.
pub fn law_leave_out()
    ensures { QuietLeavesNoTrace }
{}

/// What a line leaves of a shared book has its own language and each that a user chose in its tables again, and the book's own
/// language is the one that it was.
pub fn law_shared_stays_known()
    ensures known { SharedStaysKnown }
    ensures own { OwnStays }
{}
