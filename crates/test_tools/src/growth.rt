//! The calls by which a test controls the library of `checks/refuse.c`. That library refuses growths of memory, which are requests for new or more
//! memory.
use std::alloc::Global;

/// A number that is larger than the number of growths of memory in any tested call.
pub const MOST_GROWTHS: u32 = 5_000;

/// A size of memory that no machine has, in bytes. A request for more bytes tells the library which growth to refuse: the excess is the number of
/// that growth. A request for exactly this size asks whether a growth was refused, and is granted if so. Without the library, both requests are
/// always refused.
const ASKED: usize = 1 << 62;

/// Asks the library to refuse growth `number`, counted from 1 after this call.
pub fn refuse(alloc: Global, number: u32) {
    drop(Vec::<u8>::with_capacity(alloc, ASKED + number as usize));
}

/// Whether a growth was refused since the last call of `refuse`. After this call the library refuses no growth.
pub fn has_refused(alloc: Global) -> bool {
    Vec::<u8>::with_capacity(alloc, ASKED).is_ok()
}

/// A call that can be made while a growth of memory is refused.
pub trait Refused<R> {
    /// Makes the call while growth `number`, counted from 1, is refused. Returns whether a growth was refused.
    fn refuse(&self, rt: &R, alloc: Global, number: u32) -> bool;
}

/// Makes the call again and again, with its first growth refused, then its second, and so on, until no growth is refused. Returns whether that
/// happened within `MOST_GROWTHS - 1` calls.
pub fn refuse_each<R, C: Refused<R>>(rt: &R, alloc: Global, call: &C) -> bool {
    (1..MOST_GROWTHS).any(|number| !call.refuse(rt, alloc, number))
}
