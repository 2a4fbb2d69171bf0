//! Counts the pages that begin in a text.
ghost use Rattle.std.specs.Prelude.{◌≡◌};
ghost use Rattle.dsc.specs.PagesAfter.{page_lines as lines_that_begin_pages};
ghost use Rattle.dsc.specs.Units.{units_of};

use crate::walk::Walk;

/// The number of `%%Page:` lines of a text, outside embedded documents and data blocks. It is 0 if the text has a
/// faulty data block.
pub(crate) fn page_lines(text: &[u8]) -> usize
    ensures { result ≡ lines_that_begin_pages (units_of text.now) }
{
    let mut count = 0usize;
    let mut walk = Walk::new(text);
    while !walk.is_done() {
        let step = match walk.step() {
            Ok(step) => step,
            Err(_) => return 0,
        };
        if step.meaning.is_page {
            count += 1;
        }
    }
    count
}
