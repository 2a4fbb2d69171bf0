//! Outputs, to which bytes are written.
ghost use Rattle.std.specs.Prelude.{◌≡◌, ◌<◌, ◌≤◌, IfOk, false, is_some, length, true};
ghost use Rattle.std.specs.Io.KnownBytes.{Keeps, WriteAppends};

use std::io;
use std::io::{ErrorKind, Write};

/// A destination for bytes that counts its failures.
pub trait Output {
    ghost use Rattle.world.specs.Outputs.{CountsCall, CountsWrite, OutputView};

    // The bytes that it has taken (if it reports them), whether it has taken any, the number of its failures, and the error of the last one.
    ghost seen: { Self → OutputView };

    /// Writes one or more bytes from the front of this slice, and returns their number. The slice must not be empty. A call that fails writes no
    /// bytes.
    fn write(&mut self, bytes: &[u8]) -> io::Result<usize>
        requires some { 0 < length bytes.now }
        requires countable { (seen self.old).failures < u64.MAX }
        ensures within { IfOk result (λ k. (0 < k) × (k ≤ length bytes.now)) }
        ensures written { WriteAppends (seen self.old).bytes (seen self.new).bytes result bytes.now }
        ensures counted { CountsWrite (seen self.old) (seen self.new) result };

    /// Passes on the bytes that were written but are still held back.
    fn flush(&mut self) -> io::Result<()>
        requires countable { (seen self.old).failures < u64.MAX }
        ensures kept { Keeps (seen self.old).bytes (seen self.new).bytes }
        ensures counted { CountsCall (seen self.old) (seen self.new) result };

    /// The number of failures so far.
    fn failures(&self) -> u64
        ensures { result ≡ (seen self.now).failures };

    /// The error of the last failure. None if there was no failure.
    fn cause(&self) -> Option<io::Error>
        ensures { result ≡ (seen self.now).cause };
}

/// A writer used as an output. A write fails if the writer returns an error or takes none of the bytes, and a flush fails if the writer returns an
/// error.
#[derive(Drop)]
pub struct WriteOutput<T> {
    pub writer: T,
    has_taken: bool,
    failures: u64,
    cause: Option<io::Error>,
}

impl<T: Write> WriteOutput<T> {
    ghost use Rattle.world.specs.Outputs.{fresh_output};

    /// An output that writes to this writer. The output has taken no byte and has not failed yet.
    pub fn new(writer: T) -> WriteOutput<T>
        ensures { ⟦<WriteOutput<T> as Output>⟧.seen result ≡ fresh_output (T.contents writer) }
    {
        WriteOutput {
            writer,
            has_taken: false,
            failures: 0,
            cause: None,
        }
    }
}

impl<T: Write> Output for WriteOutput<T> {
    ghost seen = { λ output. record {
      bytes = T.contents output.writer;
      has_taken = output.has_taken;
      failures = output.failures;
      cause = output.cause;
    } };

    fn write(&mut self, bytes: &[u8]) -> io::Result<usize> {
        let error = match self.writer.write(bytes) {
            Ok(0) => io::Error::from(ErrorKind::WriteZero),
            Ok(count) => {
                self.has_taken = true;
                return Ok(count);
            }
            Err(error) => error,
        };
        self.failures += 1;
        self.cause = Some(error);
        Err(error)
    }

    fn flush(&mut self) -> io::Result<()> {
        match self.writer.flush() {
            Ok(()) => Ok(()),
            Err(error) => {
                self.failures += 1;
                self.cause = Some(error);
                Err(error)
            }
        }
    }

    fn failures(&self) -> u64 {
        self.failures
    }

    fn cause(&self) -> Option<io::Error> {
        self.cause
    }
}
