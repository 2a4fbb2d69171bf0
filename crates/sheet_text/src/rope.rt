//! Text that is made of pieces, so that long slices needn't be copied.
ghost use Rattle.std.specs.Prelude.{◌≡◌, ◌+◌, ◌*◌, ◌^◌, ◌<◌, ◌≤◌, ◌++◌, [], length, nat_abs, IfOk, IfSome, IsNone, OnOk, OnErr};
ghost use Rattle.rules.specs.Numbers.{points_text};
ghost use Rattle.rules.specs.Output.{closing_text as closing};

use lengths::{Grains, print_grains, print_points};
use placement::closing_text;
use std::alloc::{AllocError, Global};
use std::marker::Model;

/// The least number of bytes of a slice that is borrowed. Copying a shorter slice is cheaper than keeping a reference to it.
pub(crate) const LEAST_BORROWED: usize = 4_096;

/// Text made of pieces: bytes that the rope owns, and borrowed slices between them, which aren't copied. A contract sees the list of all bytes, in
/// order.
#[derive(Drop)]
pub struct Rope<'r> {
    pub(crate) own: Vec<u8>,
    pub(crate) slices: Vec<Borrowed<'r>>,
}

/// A borrowed slice. It comes before the owned byte with index `at`, or after all owned bytes if no owned byte has this index.
#[derive(Clone, Copy)]
pub(crate) struct Borrowed<'r> {
    pub(crate) at: usize,
    pub(crate) bytes: &'r [u8],
}

impl<'r> Model for Rope<'r> {
    ghost use Rattle.std.specs.Prelude.{ℕ, List, length};
    ghost use Rattle.sheet_text.specs.Ropes.{woven, AreInPlace};

    ghost Value = { List ℕ };

    ghost view = { λ r. woven 0 r.own.items r.slices.items };

    ghost invariant = { λ r. AreInPlace 0 (length r.own.items) r.slices.items };
}

impl<'r> Rope<'r> {
    /// Makes an empty rope, without allocating memory.
    pub fn new(alloc: Global) -> Rope<'r>
        ensures { result ≡ [] }
    {
        Rope {
            own: Vec::new(alloc),
            slices: Vec::new(alloc),
        }
    }

    /// Removes all text, but keeps the allocated memory.
    pub fn clear(&mut self)
        ensures { self.new ≡ [] }
    {
        self.own.clear();
        self.slices.clear();
    }

    /// Reserves memory for this number of further bytes that the rope will own.
    pub fn reserve(&mut self, count: usize) -> Result<(), AllocError>
        ensures { self.new ≡ self.old }
    {
        self.own.reserve(count)
    }

    /// Appends a copy of these bytes. If memory is refused, nothing is appended.
    pub fn append(&mut self, bytes: &[u8]) -> Result<(), AllocError>
        ensures appended { OnOk result (self.new ≡ self.old ++ bytes.now) }
        ensures unchanged { OnErr result (self.new ≡ self.old) }
    {
        self.own.extend_from_slice(bytes)
    }

    /// Appends bytes that live as long as the rope. They are borrowed if there are 4,096 or more of them, and copied otherwise. If memory is refused,
    /// nothing is appended.
    pub fn append_borrowed(&mut self, bytes: &'r [u8]) -> Result<(), AllocError>
        ensures appended { OnOk result (self.new ≡ self.old ++ bytes.now) }
        ensures unchanged { OnErr result (self.new ≡ self.old) }
    {
        if bytes.len() < LEAST_BORROWED {
            return self.append(bytes);
        }
        let placed = Borrowed {
            at: self.own.len(),
            bytes,
        };
        self.slices.push(placed)?;
        Ok(())
    }

    /// Appends the text after a placed page. If memory is refused, nothing is appended.
    pub(crate) fn append_closing(&mut self) -> Result<(), AllocError>
        ensures { OnOk result (self.new ≡ self.old ++ closing) }
    {
        closing_text(&mut self.own)
    }

    /// Appends a length, written as a number of points. If memory is refused, nothing is appended.
    pub(crate) fn append_points(&mut self, length: Grains) -> Result<(), AllocError>
        ensures { OnOk result (self.new ≡ self.old ++ points_text length) }
    {
        print_points(length, &mut self.own)
    }

    /// Appends a length that is given in grains, written as a number of points. If memory is refused, nothing is appended.
    pub(crate) fn append_grains(&mut self, grains: i128) -> Result<(), AllocError>
        requires { nat_abs grains ≤ 2 * 10 ^ 23 }
        ensures { OnOk result (self.new ≡ self.old ++ points_text grains) }
    {
        print_grains(grains, &mut self.own)
    }

    /// The number of bytes that the rope can own without allocating more memory.
    pub fn capacity(&self) -> usize {
        self.own.capacity()
    }

    /// The pieces of the text, in order.
    pub fn pieces(&self) -> Pieces<'_, 'r>
        ensures { result ≡ self.now }
    {
        Pieces {
            from: 0,
            own: self.own.as_slice(),
            slices: self.slices.as_slice(),
            next: 0,
        }
    }

    /// Copies the whole text into one vector. The only error is refused memory.
    pub fn to_vec(&self, alloc: Global) -> Result<Vec<u8>, AllocError>
        ensures { IfOk result (λ copy. copy.items ≡ self.now) }
    {
        let mut copy = Vec::new(alloc);
        let mut pieces = self.pieces();
        while let Some(piece) = pieces.take_next() {
            copy.extend_from_slice(piece)?;
        }
        Ok(copy)
    }
}

/// The pieces of a rope that haven't been taken yet. A contract sees the bytes of all these pieces, in order.
#[derive(Drop)]
pub struct Pieces<'p, 'r> {
    /// The index, in the rope, of the first byte of `own`.
    pub(crate) from: usize,
    /// The owned bytes that haven't been taken.
    pub(crate) own: &'p [u8],
    /// All borrowed slices of the rope.
    pub(crate) slices: &'p [Borrowed<'r>],
    /// The index of the first borrowed slice that hasn't been taken.
    pub(crate) next: usize,
}

impl<'p, 'r> Model for Pieces<'p, 'r> {
    ghost use Rattle.std.specs.Prelude.{ℕ, ◌+◌, List, length, drop};
    ghost use Rattle.sheet_text.specs.Ropes.{woven, AreInPlace};

    ghost Value = { List ℕ };

    ghost view = { λ p. woven p.from p.own.now (drop p.next p.slices.now) };

    ghost invariant = { λ p. AreInPlace p.from (p.from + length p.own.now) (drop p.next p.slices.now) };
}

impl<'p, 'r> Pieces<'p, 'r> {
    /// The number of bytes in all remaining pieces. None if this number exceeds `usize::MAX`, which can happen because one slice may occur many
    /// times.
    pub fn len(&self) -> Option<usize>
        ensures counted { IfSome result (λ count. count ≡ length self.now) }
        ensures uncounted { IsNone result → usize.MAX < length self.now }
    {
        let mut count = self.own.len();
        for nth in self.next..self.slices.len() {
            count = count.checked_add(self.slices[nth].bytes.len())?;
        }
        Some(count)
    }

    /// Takes the next piece, which has at least one byte. None if no piece is left.
    pub fn take_next(&mut self) -> Option<&'p [u8]>
        ensures taken { IfSome result (λ piece. self.old ≡ piece.now ++ self.new) }
        ensures some { IfSome result (λ piece. 0 < length piece.now) }
        ensures all { IsNone result → (self.old ≡ []) × (self.new ≡ []) }
    {
        let own = self.own;
        if self.next >= self.slices.len() {
            if own.is_empty() {
                return None;
            }
            self.own = &[];
            return Some(own);
        }
        let placed = self.slices[self.next];
        if placed.at > self.from {
            let (front, rest) = own.split_at(placed.at - self.from);
            self.from = placed.at;
            self.own = rest;
            return Some(front);
        }
        self.next += 1;
        Some(placed.bytes)
    }
}
