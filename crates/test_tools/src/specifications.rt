//! Page specifications for tests.
use std::alloc::{AllocError, Global};

/// Two pages side by side on A4, turned to the left.
pub const TWO_UP: &str = "2:0L@.7(21cm,0)+1L@.7(21cm,14.85cm)";

/// Two pages on each sheet, one counted from the end of the document and one from its start. For a document of four pages, the sheets are the two
/// sides of a booklet's leaf.
pub const BOOKLET: &str = "4:-3L@.7(21cm,0)+0L@.7(21cm,14.85cm),1L@.7(21cm,0)+-2L@.7(21cm,14.85cm)";

/// A specification that puts this item into each of `slots` slots of a sheet. The only error is running out of memory.
pub fn same_items(alloc: Global, item: &str, slots: u32) -> Result<String, AllocError> {
    let items = vec![in alloc; item; slots as usize]?;
    items.as_slice().join(alloc, "+")
}
