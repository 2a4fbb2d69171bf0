//! Sets of sheet numbers.
ghost use Rattle.std.specs.Prelude.{◌≡◌, ℕ, ◌<◌, ◌≤◌, ◌↔◌, true, IfSome, IfNone, OnOk, OnErr, IsTrue};
ghost use Rattle.std.specs.Ordering.{nat_cmp};
ghost use Rattle.std.specs.Coded.{coded_ℕ};
ghost use Rattle.std.specs.FinSet as set;
ghost use Rattle.imposer.specs.SheetNumbers.{IsSmallest, HasNoneBelow, numbers, AreCounted};

use crate::bits::{BITS, clear_bit, cover, has_bit, next_filled, set_bit};
use std::alloc::{AllocError, Global};
use std::marker::Model;

/// A set of sheet numbers, stored as one bit for each number from 0 up to the greatest number that was ever in the set.
#[derive(Drop)]
pub struct SheetSet {
    words: Vec<u64>,
    /// The index of the first word that may have a set bit.
    first: usize,
    /// The number of set bits.
    count: u64,
}

impl Model for SheetSet {
    ghost Value = { set.FinSet nat_cmp };

    ghost coded = { set.code coded_ℕ };

    ghost view = { λ s. numbers s.words.items };

    ghost invariant = { λ s. AreCounted s.words.items s.first s.count };
}

impl SheetSet {
    /// Makes an empty set, without allocating memory.
    pub fn new(alloc: Global) -> Self
        ensures { result ≡ set.empty }
    {
        SheetSet {
            words: Vec::new(alloc),
            first: 0,
            count: 0,
        }
    }

    /// Whether the set is empty.
    pub fn is_empty(&self) -> bool
        ensures { IsTrue result ↔ self.now ≡ set.empty }
    {
        self.count == 0
    }

    /// Adds a number to the set. If memory is refused, the set is unchanged.
    pub fn insert(&mut self, sheet: u32) -> Result<(), AllocError>
        ensures inserted { OnOk result (self.new ≡ set.insert self.old sheet) }
        ensures refused { OnErr result (self.new ≡ self.old) }
    {
        cover(&mut self.words, sheet)?;
        if !has_bit(&self.words, sheet) {
            set_bit(&mut self.words, sheet);
            self.first = self.first.min(sheet as usize / BITS);
            self.count += 1;
        }
        Ok(())
    }

    /// Removes and returns the smallest number of the set, if it is below `end`. Otherwise returns None and leaves the set unchanged.
    pub fn take_first_before(&mut self, end: u32) -> Option<u32>
        ensures first { IfSome result (IsSmallest self.old) }
        ensures before { IfSome result (λ sheet. sheet < end) }
        ensures taken { IfSome result (λ sheet. self.new ≡ set.remove self.old sheet) }
        ensures none { IfNone result (HasNoneBelow self.old end) }
        ensures same { IfNone result (self.new ≡ self.old) }
    {
        self.first = next_filled(&self.words, self.first, end);
        if self.first >= self.words.len() {
            return None;
        }
        let bits = self.words[self.first];
        if bits == 0 {
            return None;
        }
        let sheet = self.first as u32 * 64 + bits.trailing_zeros();
        if sheet >= end {
            return None;
        }
        clear_bit(&mut self.words, sheet);
        self.count -= 1;
        Some(sheet)
    }
}
