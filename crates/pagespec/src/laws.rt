//! Laws of specifications. Each function states one law in its `ensures`, and has an empty body.
ghost use Rattle.pagespec.specs.Canonical.{CanonicalIsTaken, CanonicalIsShort};

/// If a text is accepted, its canonical text is accepted too, and has the same meaning.
pub fn canonical_is_taken()
    ensures { CanonicalIsTaken }
{}

/// The canonical text of an accepted text is at most one byte longer than that text. It is longer only if the accepted text leaves out its page
/// number.
pub fn canonical_is_short()
    ensures { CanonicalIsShort }
{}
