//! Laws of lines that are inserted into a document. Each function states one law in its `ensures`, and has an empty
//! body.
ghost use Rattle.guard.specs.Laws.{GuardIsShort, GuardStays, LinesStay};

/// Suppose that lines are inserted after the header comments of a document. The first of them must not be empty, none
/// may begin a page or a block of data, and together they must leave no embedded document open. Unless the document
/// becomes too long, it is still accepted, with the same pages and the same trailer. Its units are those that it had
/// before, and the inserted lines.
pub fn lines_stay()
    ensures { LinesStay }
{}

/// For any paper of the sheet, or none, the guard changes only the preamble of a document. Unless the document becomes
/// too long, it is still accepted.
pub fn guard_stays()
    ensures { GuardStays }
{}

/// No line of the guard is longer than the 255 bytes that DSC allows, for any paper of the sheet or none.
pub fn guard_is_short()
    ensures { GuardIsShort }
{}
