//! The world of the machine on which the program runs.
ghost use Rattle.std.specs.Prelude.{◌≡◌, ◌+◌, ◌<◌, ◌≤◌, None, option_map};
ghost use Rattle.std.specs.IoError.{error_kind};
ghost use Rattle.world.specs.Worlds.{cause_of, failures_of};

use crate::failures::Failures;
use crate::output::WriteOutput;
use crate::source::ReadSource;
use crate::world::{Refused, World};
use std::fs::{File, Files};
use std::io::{IsTerminal, Read, Stderr, Stdin, Stdout, Write};
use std::os::unix::fs::MetadataExt;
use std::{fs, io};

/// The world of the machine on which the program runs: its files and standard streams.
#[derive(Drop)]
pub struct Host<'a, R: Files> {
    files: &'a R,
    stdin: Stdin,
    stdout: Stdout,
    stderr: Stderr,
    failures: Failures,
}

/// An input of the machine: a file or standard input.
#[derive(Drop)]
pub enum HostInput<F> {
    File(F),
    Standard(Stdin),
}

/// An output of the machine: a file or standard output.
#[derive(Drop)]
pub enum HostOutput<F> {
    File(F),
    Standard(Stdout),
}

/// The name by which the system knows the file that is standard input.
const STANDARD_INPUT: &str = "/dev/stdin";

impl<'a, R: Files> Host<'a, R> {
    /// The world with these files and standard streams. The world has not failed yet.
    pub fn new(files: &'a R, stdin: Stdin, stdout: Stdout, stderr: Stderr) -> Host<'a, R>
        ensures { (⟦<Host<'a, R> as World>⟧.seen result).failures ≡ 0 }
    {
        Host {
            files,
            stdin,
            stdout,
            stderr,
            failures: Failures::none(),
        }
    }
}

impl<'a, R: Files> World for Host<'a, R> {
    type Input = HostInput<R::File>;

    type Output = WriteOutput<HostOutput<R::File>>;

    // It doesn't record the calls that are made.
    ghost seen = { λ host. record { asked = None; failures = host.failures.count; cause = host.failures.last } };

    fn open(&mut self, name: Option<&str>) -> io::Result<HostInput<R::File>> {
        match name {
            Some(path) => match File::open(self.files, path) {
                Ok(file) => Ok(HostInput::File(file)),
                Err(cause) => {
                    self.failures.add(&cause);
                    Err(cause)
                }
            },
            None => Ok(HostInput::Standard(self.stdin)),
        }
    }

    fn close(&mut self, source: ReadSource<HostInput<R::File>>) -> Option<io::Error>
        requires countable { self.old.failures.count + failures_of source ≤ u64.MAX }
        ensures cause { result ≡ cause_of source }
        ensures last { 0 < failures_of source → self.new.failures.last ≡ option_map error_kind result }
        ensures kept { failures_of source ≡ 0 → self.new.failures.last ≡ self.old.failures.last }
        ensures asked { (⟦<Host<'a, R> as World>⟧.seen self.new).asked ≡ (⟦<Host<'a, R> as World>⟧.seen self.old).asked }
        ensures counted { self.new.failures.count ≡ self.old.failures.count + failures_of source }
        ensures again { ⟦<Host<'a, R> as World>⟧.gives self.new ≡ ⟦<Host<'a, R> as World>⟧.gives self.old }
        ensures same { ⟦<Host<'a, R> as World>⟧.same self.new ≡ ⟦<Host<'a, R> as World>⟧.same self.old }
        ensures terminal { ⟦<Host<'a, R> as World>⟧.terminal self.new ≡ ⟦<Host<'a, R> as World>⟧.terminal self.old }
        ensures reports_outputs { ⟦<Host<'a, R> as World>⟧.reports_outputs self.new ≡ ⟦<Host<'a, R> as World>⟧.reports_outputs self.old }
    {
        self.failures.close(source)
    }

    fn is_file(&self, name: &str) -> bool {
        match fs::metadata(self.files, name) {
            Ok(found) => found.is_file(),
            Err(_) => false,
        }
    }

    fn is_input(&self, input: Option<&str>, file: &str) -> bool {
        let input = input.unwrap_or(STANDARD_INPUT);
        match (
            fs::metadata(self.files, input),
            fs::metadata(self.files, file),
        ) {
            (Ok(one), Ok(other)) => {
                one.is_file() && one.dev() == other.dev() && one.ino() == other.ino()
            }
            _ => false,
        }
    }

    fn is_output_terminal(&self) -> bool {
        self.stdout.is_terminal()
    }

    fn announce(&self, line: &str) {
        if self.stdin.is_terminal() {
            let mut stderr = self.stderr;
            let _ = stderr.write_all(line.as_bytes());
        }
    }

    fn create(
        self,
        name: Option<&str>,
    ) -> Result<WriteOutput<HostOutput<R::File>>, Refused<Host<'a, R>>> {
        match name {
            Some(path) => match File::create(self.files, path) {
                Ok(file) => Ok(WriteOutput::new(HostOutput::File(file))),
                Err(cause) => {
                    let mut world = self;
                    world.failures.add(&cause);
                    Err(Refused { world, cause })
                }
            },
            None => Ok(WriteOutput::new(HostOutput::Standard(self.stdout))),
        }
    }
}

impl<F: Read> Read for HostInput<F> {
    fn read(&mut self, buffer: &mut [u8]) -> io::Result<usize> {
        match self {
            HostInput::File(file) => file.read(buffer),
            HostInput::Standard(stream) => stream.read(buffer),
        }
    }
}

impl<F: Write> Write for HostOutput<F> {
    fn write(&mut self, bytes: &[u8]) -> io::Result<usize> {
        match self {
            HostOutput::File(file) => file.write(bytes),
            HostOutput::Standard(stream) => stream.write(bytes),
        }
    }

    fn flush(&mut self) -> io::Result<()> {
        match self {
            HostOutput::File(file) => file.flush(),
            HostOutput::Standard(stream) => stream.flush(),
        }
    }
}
