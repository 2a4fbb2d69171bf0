//! Counts the failures of a world.
ghost use Rattle.std.specs.Prelude.{◌≡◌, ◌+◌, ◌<◌, ◌≤◌, None, Some, option_map};
ghost use Rattle.std.specs.IoError.{error_kind};

use crate::source::ReadSource;
use std::io;
use std::io::{ErrorKind, Read};

/// The number of failures of a world, and the kind of error of its last failure, if it has failed.
#[derive(Clone, Copy, Debug, PartialEq, Eq)]
pub struct Failures {
    pub count: u64,
    pub last: Option<ErrorKind>,
}

impl Failures {
    ghost use Rattle.world.specs.Worlds.{cause_of, failures_of};

    /// The count of a world that has not failed.
    pub fn none() -> Failures
        ensures { result ≡ record { count = 0; last = None } }
    {
        Failures {
            count: 0,
            last: None,
        }
    }

    /// Counts one more failure, and records the kind of its error.
    pub fn add(&mut self, cause: &io::Error)
        requires { self.old.count < u64.MAX }
        ensures { self.new ≡ record { count = self.old.count + 1; last = Some (error_kind cause.now) } }
    {
        self.count += 1;
        self.last = Some(cause.kind());
    }

    /// Closes an input, adds its failures, and keeps the kind of its last failure, if it has failed. Returns the error of the input's last failure,
    /// or None if the input hasn't failed.
    pub fn close<T: Read + Drop>(&mut self, source: ReadSource<T>) -> Option<io::Error>
        requires { self.old.count + failures_of source ≤ u64.MAX }
        ensures cause { result ≡ cause_of source }
        ensures counted { self.new.count ≡ self.old.count + failures_of source }
        ensures last { 0 < failures_of source → self.new.last ≡ option_map error_kind result }
        ensures kept { failures_of source ≡ 0 → self.new.last ≡ self.old.last }
    {
        self.count += source.failures();
        let cause = source.into_cause();
        if let Some(error) = &cause {
            self.last = Some(error.kind());
        }
        cause
    }
}
