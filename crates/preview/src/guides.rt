//! Guides: lines that are drawn on sheets.
use lengths::{Grains, print_points};
use std::alloc::AllocError;

/// The meaning of a guide: the edge of a margin, a fold, a cut, or a line for notes.
#[derive(Clone, Copy, Debug, PartialEq, Eq)]
pub enum GuideKind {
    Margin,
    Fold,
    Cut,
    Note,
}

/// A guide, which is a line on a sheet between two points. Each point is given by its distances from the left and the lower edge, in grains.
#[derive(Clone, Copy, Debug, PartialEq, Eq)]
pub struct Guide {
    pub kind: GuideKind,
    pub start: (Grains, Grains),
    pub end: (Grains, Grains),
}

/// Appends the lines of all guides.
pub(crate) fn append_guides(guides: &[Guide], out: &mut Vec<u8>) -> Result<(), AllocError> {
    for guide in guides {
        out.extend_from_slice(b"<line class='")?;
        out.extend_from_slice(kind_name(guide.kind))?;
        out.extend_from_slice(b"' x1='")?;
        print_points(guide.start.0, out)?;
        out.extend_from_slice(b"' y1='")?;
        print_points(guide.start.1, out)?;
        out.extend_from_slice(b"' x2='")?;
        print_points(guide.end.0, out)?;
        out.extend_from_slice(b"' y2='")?;
        print_points(guide.end.1, out)?;
        out.extend_from_slice(b"'/>\n")?;
    }
    Ok(())
}

/// The name of the style for guides of this kind.
fn kind_name(kind: GuideKind) -> &'static [u8] {
    match kind {
        GuideKind::Margin => b"margin",
        GuideKind::Fold => b"fold",
        GuideKind::Cut => b"cut",
        GuideKind::Note => b"note",
    }
}
