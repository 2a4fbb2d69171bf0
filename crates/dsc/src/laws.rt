//! Laws of pages. Each function states one law in its `ensures`, and has an empty body.
ghost use Rattle.dsc.specs.Laws.{PagesStandAlone, PagesHaveBodies};

/// If a text can be cut, each of its pages can be cut as a text by itself. The page then has the units that it has in
/// the text, at the same depths.
pub fn pages_stand_alone()
    ensures { PagesStandAlone }
{}

/// No page of a document has a faulty data block. So preparing the body of a page fails only if memory is refused.
pub fn pages_have_bodies()
    ensures { PagesHaveBodies }
{}
