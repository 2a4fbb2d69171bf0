//! Laws of rows. Each function states one law in its `ensures`, and has an empty body.
ghost use Rattle.rows.specs.LastPage.{LastPageIsLast};
ghost use Rattle.rows.specs.Printed.{BegunLeavesUsed};
ghost use Rattle.rows.specs.Sewing.{SignedIsRead};

/// If a row is put into signatures and printed on leaves, which are then folded, its entries are read in their order.
/// The blanks that fill up the last signature come after them.
pub fn signed_is_read()
    ensures { SignedIsRead }
{}

/// Suppose that a row has at most 1,000,000 entries once blanks fill up its last signature. If these blanks are put before the row's last entry, this
/// entry is at the back of the folded booklet.
pub fn last_page_is_last()
    ensures { LastPageIsLast }
{}

/// On a begun sheet, the cells that were used before stay empty, and the row's entries follow in order. For cards, each further cell has the entry
/// that it would have on a whole sheet.
pub fn begun_leaves_used()
    ensures { BegunLeavesUsed }
{}
