//! Outputs in memory, for tests.
ghost use Rattle.std.specs.Prelude.{◌≡◌, IfOk, [], option_map, string_bytes, true};
ghost use Rattle.world.specs.Outputs.{reported_if};

use crate::trace::owned;
use std::alloc::Global;
use std::io;
use std::io::{ErrorKind, Write};

/// The behaviour of an output.
#[derive(Clone, Copy)]
pub enum Takes {
    /// The output takes this number of bytes in all. A write beyond that number is cut short, and the next write fails.
    Bytes(usize),
    /// The output takes all bytes, but at most this number in each call.
    Pieces(usize),
    /// The output takes all bytes, and passes them on only when it is flushed.
    Held,
    /// The output takes all bytes, but can't be flushed.
    NoFlush,
    /// The output can't be created.
    Nothing,
}

/// The number of bytes for which an output reserves memory when it is created. No growth of memory is needed to write up to this number.
const ROOM: usize = 4_096;

/// An output: the name under which it was created, and the bytes written to it.
#[derive(Drop)]
pub struct Written {
    pub name: Option<String>,
    pub bytes: Vec<u8>,
    takes: Takes,
    /// The number of bytes that were written before the last flush.
    flushed: usize,
}

impl Written {
    /// An empty output with this name. The error is `PermissionDenied` if `takes` is `Nothing`, or `OutOfMemory` if memory is refused.
    pub fn new(alloc: Global, name: Option<&str>, takes: Takes) -> io::Result<Written>
        ensures empty { IfOk result (λ output. output.bytes.items ≡ []) }
        ensures named { IfOk result (λ output.
            option_map string_bytes output.name ≡ option_map (λ n. n.now) name.entry) }
    {
        if let Takes::Nothing = takes {
            return Err(io::Error::from(ErrorKind::PermissionDenied));
        }
        let Ok(name) = owned(alloc, name) else {
            return Err(io::Error::from(ErrorKind::OutOfMemory));
        };
        match Vec::with_capacity(alloc, ROOM) {
            Ok(bytes) => Ok(Written {
                name,
                bytes,
                takes,
                flushed: 0,
            }),
            Err(_) => Err(io::Error::from(ErrorKind::OutOfMemory)),
        }
    }

    /// The bytes that have reached their destination: those that were flushed if `takes` is `Held`, and otherwise all that were written.
    pub fn arrived(&self) -> &[u8] {
        let bytes = self.bytes.as_slice();
        match self.takes {
            Takes::Held => {
                let (flushed, _) = bytes.split_at(self.flushed.min(bytes.len()));
                flushed
            }
            _ => bytes,
        }
    }
}

impl Write for Written {
    ghost contents = { λ output. reported_if true (option_map string_bytes output.name) output.bytes.items };

    fn write(&mut self, bytes: &[u8]) -> io::Result<usize> {
        let room = match self.takes {
            Takes::Bytes(most) => most.saturating_sub(self.bytes.len()),
            Takes::Pieces(most) => most,
            _ => bytes.len(),
        };
        if room == 0 && !bytes.is_empty() {
            return Err(io::Error::from(ErrorKind::StorageFull));
        }
        let count = room.min(bytes.len());
        let (taken, _) = bytes.split_at(count);
        match self.bytes.extend_from_slice(taken) {
            Ok(()) => Ok(count),
            Err(_) => Err(io::Error::from(ErrorKind::OutOfMemory)),
        }
    }

    fn flush(&mut self) -> io::Result<()> {
        match self.takes {
            Takes::NoFlush => Err(io::Error::from(ErrorKind::Other)),
            _ => {
                self.flushed = self.bytes.len();
                Ok(())
            }
        }
    }
}
