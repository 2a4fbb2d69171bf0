//! Laws of the calls that deliveries make. Each function states one law in its contract, and does nothing.
ghost use Rattle.run_steps.specs.Delivery.{DeliveriesClose, CompletedAreCounted, CompletedAreFew, NoneHandedBack};
ghost use Rattle.run_steps.specs.Duty.{DeliveriesWeigh, SharesAreAll};
ghost use Rattle.run_steps.specs.Gathered.{GathersAll, GatheredAreFound, TakenAtMostOnce};

/// A delivery makes exactly the changes to the table that its page needs: it publishes the page, and marks each place of the page.
pub fn deliveries_weigh()
    ensures { DeliveriesWeigh }
{}

/// Suppose that page p goes to the preparer with the number p modulo the number of preparers. Then the shares of all preparers are together the work
/// of all pages.
pub fn shares_are_all()
    ensures { SharesAreAll }
{}

/// Take a seat that has all shares. Suppose that its own calls made exactly the changes to the table that all pages need, and closed each group that
/// a mark filled. Then each page was published once, each slot with a page was marked once, each group with such a slot was closed once, and every
/// sheet is complete.
pub fn gathers_all()
    ensures { GathersAll }
{}

/// Once a run has gathered all its pages, any caller that has seen this finds each page of a sheet, always at the same index.
pub fn gathered_are_found()
    ensures { GatheredAreFound }
{}

/// From the queue of a run that has gathered all its pages, no sheet was taken twice, and none that is still in it was taken.
pub fn taken_at_most_once()
    ensures { TakenAtMostOnce }
{}

/// A delivery closes each group of a wide sheet that one of its marks fills.
pub fn deliveries_close()
    ensures { DeliveriesClose }
{}

/// In the list of sheets that a series of calls completed, each sheet occurs once for each call that completed it.
pub fn completed_are_counted()
    ensures { CompletedAreCounted }
{}

/// A delivery completes at most as many sheets as its page has places.
pub fn completed_are_few()
    ensures { CompletedAreFew }
{}

/// If the pass has room for the sheets that a delivery completes, none of them is handed back. The room of the pass is then lowered by the number of
/// these sheets.
pub fn none_handed_back()
    ensures { NoneHandedBack }
{}
