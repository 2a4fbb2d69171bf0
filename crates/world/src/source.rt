//! Sources, from which bytes are read.
ghost use Rattle.std.specs.Prelude.{◌≡◌, ◌<◌, ◌≤◌, IfOk, None, is_some, length, true};

use std::io;
use std::io::Read;

/// The error of a failed call of a source. Such a call gives no bytes.
#[derive(Clone, Copy, Debug, PartialEq, Eq)]
pub struct SourceFault;

/// A source of bytes, which are read in order.
pub trait Source {
    ghost use Rattle.world.specs.Input.{Counts, Fills, SourceView};

    // The bytes that are still to come (if it reports them), and the number of its failures.
    ghost seen: { Self → SourceView };

    /// Moves some of the next bytes to the front of `buffer`, and returns their number, which is 0 only at the end of the source. A call that fails
    /// takes no bytes. The buffer must not be empty.
    fn fill(&mut self, buffer: &mut [u8]) -> Result<usize, SourceFault>
        requires room { 0 < length buffer.old }
        requires countable { (seen self.old).failures < u64.MAX }
        ensures within { IfOk result (λ k. k ≤ length buffer.new) }
        ensures moved { Fills (seen self.old).bytes (seen self.new).bytes result buffer.new }
        ensures counted { Counts (seen self.old).failures (seen self.new).failures result };
}

/// A reader used as a source. Each error of the reader is a failure, even the error of an interrupted read.
#[derive(Drop)]
pub struct ReadSource<T> {
    reader: T,
    failures: u64,
    cause: Option<io::Error>,
    ghost caused: { 0 < failures → is_some cause ≡ true },
    ghost uncaused: { failures ≡ 0 → cause ≡ None },
}

impl<T: Read> ReadSource<T> {
    /// A source of the bytes that the reader has not yet given. The source has not failed yet.
    pub fn new(reader: T) -> ReadSource<T>
        ensures remaining { (⟦<ReadSource<T> as Source>⟧.seen result).bytes ≡ T.remaining reader }
        ensures fresh { (⟦<ReadSource<T> as Source>⟧.seen result).failures ≡ 0 }
    {
        ReadSource {
            reader,
            failures: 0,
            cause: None,
        }
    }

    /// The number of failures so far.
    pub fn failures(&self) -> u64
        ensures { result ≡ self.now.failures }
    {
        self.failures
    }
}

impl<T: Read + Drop> ReadSource<T> {
    /// The error of the last failure. None if there was no failure.
    pub fn into_cause(self) -> Option<io::Error>
        ensures { result ≡ self.cause }
    {
        self.cause
    }
}

impl<T: Read> Source for ReadSource<T> {
    ghost seen = { λ s. record { bytes = T.remaining s.reader; failures = s.failures } };

    fn fill(&mut self, buffer: &mut [u8]) -> Result<usize, SourceFault> {
        match self.reader.read(buffer) {
            Ok(count) => Ok(count),
            Err(cause) => {
                self.failures += 1;
                self.cause = Some(cause);
                Err(SourceFault)
            }
        }
    }
}
