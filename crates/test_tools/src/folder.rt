//! A world of files in memory, for tests.
ghost use Rattle.std.specs.Prelude.{◌≡◌, ◌+◌, ◌<◌, ◌≤◌, [], Some, true, option_map};
ghost use Rattle.std.specs.IoError.{error_kind};
ghost use Rattle.world.specs.Worlds.{cause_of, failures_of};
ghost use Rattle.test_tools.specs.Files.{is_named, is_regular, read_by};
ghost use Rattle.test_tools.specs.Traces.{accesses_in};

use crate::files::{GivenFile, bytes_named};
use crate::in_memory::{Takes, Written};
use crate::trace::Trace;
use std::alloc::Global;
use std::io;
use std::io::ErrorKind;
use world::{Failures, ReadSource, Refused, World, WriteOutput};

/// A world of files in memory, which can only be read, and of one output in memory. Standard input is the file named `-`, or is empty without such a
/// file.
#[derive(Drop)]
pub struct Folder<'a> {
    alloc: Global,
    files: &'a [GivenFile<'a>],
    takes: Takes,
    is_terminal: bool,
    trace: Trace,
    failures: Failures,
}

impl<'a> Folder<'a> {
    /// A world of these files, whose output behaves as `takes` says, and isn't a terminal. The world has received no request.
    pub fn new(alloc: Global, files: &'a [GivenFile<'a>], takes: Takes) -> Folder<'a>
        ensures gives { ⟦<Folder<'a> as World>⟧.gives result ≡ (λ name. Some (read_by files.now name)) }
        ensures asked { (⟦<Folder<'a> as World>⟧.seen result).asked ≡ Some [] }
        ensures failures { (⟦<Folder<'a> as World>⟧.seen result).failures ≡ 0 }
    {
        Folder {
            alloc,
            files,
            takes,
            is_terminal: false,
            trace: Trace::new(alloc),
            failures: Failures::none(),
        }
    }

    /// The same world, with a terminal as its standard output.
    pub fn at_terminal(self) -> Folder<'a>
        ensures terminal { ⟦<Folder<'a> as World>⟧.terminal result ≡ Some true }
        ensures gives { ⟦<Folder<'a> as World>⟧.gives result ≡ ⟦<Folder<'a> as World>⟧.gives self.entry }
        ensures seen { ⟦<Folder<'a> as World>⟧.seen result ≡ ⟦<Folder<'a> as World>⟧.seen self.entry }
    {
        Folder {
            is_terminal: true,
            ..self
        }
    }

    /// The requests that the world has received, in order. None of them are kept if memory was refused for one of them.
    pub fn trace(&self) -> &Trace
        ensures { accesses_in result.now ≡ (⟦<Folder<'a> as World>⟧.seen self.now).asked }
    {
        &self.trace
    }

    /// The number of the world's failures: requests that it refused, and inputs that failed.
    pub fn failures(&self) -> u64
        ensures { result ≡ (⟦<Folder<'a> as World>⟧.seen self.now).failures }
    {
        self.failures.count
    }
}

impl<'a> World for Folder<'a> {
    type Input = &'a [u8];

    type Output = WriteOutput<Written>;

    ghost gives = { λ folder name. Some (read_by folder.files.now name) };

    ghost regular = { λ folder name. Some (is_regular folder.files.now name) };

    ghost same = { λ _ input name. Some (is_named input name) };

    ghost terminal = { λ folder. Some folder.is_terminal };

    ghost reports_outputs = { λ _. true };

    ghost seen = { λ folder. record {
      asked = accesses_in folder.trace;
      failures = folder.failures.count;
      cause = folder.failures.last;
    } };

    fn open(&mut self, name: Option<&str>) -> io::Result<&'a [u8]> {
        self.trace.add(self.alloc, false, name);
        match name {
            None => Ok(bytes_named(self.files, "-").unwrap_or(&[])),
            Some(name) => match bytes_named(self.files, name) {
                Some(bytes) => Ok(bytes),
                None => {
                    let cause = io::Error::from(ErrorKind::NotFound);
                    self.failures.add(&cause);
                    Err(cause)
                }
            },
        }
    }

    fn close(&mut self, source: ReadSource<&'a [u8]>) -> Option<io::Error>
        requires countable { self.old.failures.count + failures_of source ≤ u64.MAX }
        ensures cause { result ≡ cause_of source.entry }
        ensures last { 0 < failures_of source.entry → self.new.failures.last ≡ option_map error_kind result }
        ensures kept { failures_of source.entry ≡ 0 → self.new.failures.last ≡ self.old.failures.last }
        ensures asked { (⟦<Folder<'a> as World>⟧.seen self.new).asked ≡ (⟦<Folder<'a> as World>⟧.seen self.old).asked }
        ensures counted { self.new.failures.count ≡ self.old.failures.count + failures_of source.entry }
        ensures again { ⟦<Folder<'a> as World>⟧.gives self.new ≡ ⟦<Folder<'a> as World>⟧.gives self.old }
        ensures same { ⟦<Folder<'a> as World>⟧.same self.new ≡ ⟦<Folder<'a> as World>⟧.same self.old }
        ensures terminal { ⟦<Folder<'a> as World>⟧.terminal self.new ≡ ⟦<Folder<'a> as World>⟧.terminal self.old }
        ensures reports_outputs { ⟦<Folder<'a> as World>⟧.reports_outputs self.new ≡ ⟦<Folder<'a> as World>⟧.reports_outputs self.old }
    {
        self.failures.close(source)
    }

    fn is_file(&self, name: &str) -> bool {
        self.files
            .iter()
            .any(|file| file.is_regular && file.name == name)
    }

    fn is_input(&self, input: Option<&str>, file: &str) -> bool {
        match input {
            Some(name) => name == file,
            None => false,
        }
    }

    fn is_output_terminal(&self) -> bool {
        self.is_terminal
    }

    fn announce(&self, _line: &str) {}

    fn create(self, name: Option<&str>) -> Result<WriteOutput<Written>, Refused<Folder<'a>>> {
        let alloc = self.alloc;
        match Written::new(alloc, name, self.takes) {
            Ok(output) => Ok(WriteOutput::new(output)),
            Err(cause) => {
                let mut world = self;
                world.trace.add(alloc, true, name);
                world.failures.add(&cause);
                Err(Refused { world, cause })
            }
        }
    }
}
