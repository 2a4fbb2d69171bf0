//! The text of a document with free space before it, so that the guard can be inserted without moving the whole text.
ghost use Rattle.std.specs.Prelude.{◌≡◌, ◌≤◌, drop, vec_len, option_map, OnErr, OnOk};
ghost use Rattle.dsc.specs.Serving.{ArePartsOf, Serve};
ghost use Rattle.dsc.specs.declared.parts.Parts.{Parts};
ghost use Rattle.guard.specs.Guard.{guarded};

use crate::text::put_guard_before;
use lengths::Paper;
use std::alloc::AllocError;
use std::marker::Model;

/// The text of a document. There may be free space before it, which callers don't see.
#[derive(Debug, Drop)]
pub struct RoomyText {
    bytes: Vec<u8>,
    /// The index of the byte at which the text begins. The bytes before it are free space.
    start: usize,
}

impl Model for RoomyText {
    ghost use Rattle.std.specs.Prelude.{◌≤◌, drop, vec_len};
    ghost use Rattle.guard.specs.Texts.{TextView};

    ghost Value = { TextView };

    ghost view = { λ t. record { items = drop t.start t.bytes.items } };

    ghost invariant = { λ t. t.start ≤ vec_len t.bytes };
}

impl RoomyText {
    /// The text that begins at the byte `start` of `bytes`. The bytes before `start` become free space.
    pub fn with_headroom(start: usize, bytes: Vec<u8>) -> RoomyText
        requires { start ≤ vec_len bytes }
        ensures { result.items ≡ drop start bytes.items }
    {
        RoomyText { bytes, start }
    }

    /// The text of the document, without the free space.
    pub fn as_slice(&self) -> &[u8]
        ensures value { result.now ≡ self.now.items }
    {
        let (_, text) = self.bytes.as_slice().split_at(self.start);
        text
    }

    /// Inserts the guard after the header comments; `sheet_paper` is the paper of the sheet, if one is named. If the
    /// free space before the text is large enough, only the header comments are moved. The parts of the document can
    /// still be used for the guarded document (`Document::from_parts`). If memory is refused, the call fails, and the
    /// text is unchanged.
    pub fn put_guard(&mut self, sheet_paper: Option<&Paper>) -> Result<(), AllocError>
        ensures put_in { OnOk result
            (self.new.items ≡ guarded (option_map (λ p. p.now) sheet_paper.entry) self.old.items) }
        ensures parts { OnOk result ((parts : Parts) → ArePartsOf self.old.items parts → Serve parts self.new.items) }
        ensures unchanged { OnErr result (self.new.items ≡ self.old.items) }
    {
        self.start = put_guard_before(&mut self.bytes, self.start, sheet_paper)?;
        Ok(())
    }
}

impl From<Vec<u8>> for RoomyText {
    ghost from_gives = { λ bytes text. text.items ≡ bytes.items };

    fn from(bytes: Vec<u8>) -> RoomyText {
        RoomyText { bytes, start: 0 }
    }
}
