//! The files and standard streams around a program.
ghost use Rattle.std.specs.Prelude.{◌≡◌, ◌+◌, ◌<◌, ◌≤◌, Bool, false, true, List, ℕ, None, Option, [], option_map, is_some};
ghost use Rattle.std.specs.Prelude.{IfOk, IfErr, IfSome, MatchResult, OnOk};
ghost use Rattle.std.specs.IoError.{error_kind};
ghost use Rattle.world.specs.Outputs.{fresh_output, reported_if};
ghost use Rattle.world.specs.Worlds.{HasGranted, HasRefused, WorldView, cause_of, creating, failures_of, opening};

use crate::output::Output;
use crate::source::ReadSource;
use std::io;
use std::io::Read;

/// The files and standard streams around a program. The program opens its inputs and creates its output through its world.
///
/// A name is the name of a file; None is standard input or output. Creating an output uses the world up. So a program that still has its world has
/// created no output, and no program creates two outputs.
///
/// A world counts its failures: each file that it refuses to open or create, and the failures of each input that it closes. So the failures that a
/// program reports can be compared with this count.
pub trait World: Sized + Drop {
    type Input: Read + Drop;

    type Output: Output + Drop;

    // The bytes that an input of this name gives, if they are known.
    ghost gives: { Self → Option (List ℕ) → Option (List ℕ) } = { λ _ _. None };

    // Whether there is a regular file of this name, if that is known.
    ghost regular: { Self → List ℕ → Option Bool } = { λ _ _. None };

    // Whether the input of the first name is the file of the second, where that is known.
    ghost same: { Self → Option (List ℕ) → List ℕ → Option Bool } = { λ _ _ _. None };

    // Whether standard output is a terminal, if that is known.
    ghost terminal: { Self → Option Bool } = { λ _. None };

    // Whether its outputs report their names and the bytes written to them.
    ghost reports_outputs: { Self → Bool } = { λ _. false };

    // The calls made so far, the number of failures, and the kind of error of the last failure.
    ghost seen: { Self → WorldView };

    /// Opens the file of this name for reading, or takes standard input if `name` is None. A refusal is counted as a failure of the world.
    fn open(&mut self, name: Option<&str>) -> io::Result<Self::Input>
        requires countable { (seen self.old).failures < u64.MAX }
        ensures given { IfOk result (λ input. Self.Input.remaining input ≡ gives self.old (option_map (λ n. n.now) name.entry)) }
        ensures asked { MatchResult result
            (λ _. HasGranted (opening (option_map (λ n. n.now) name.entry)) (seen self.old) (seen self.new))
            (λ cause. HasRefused (opening (option_map (λ n. n.now) name.entry)) (error_kind cause) (seen self.old) (seen self.new)) }
        ensures kept { OnOk result ((seen self.new).cause ≡ (seen self.old).cause) }
        // A file gives the same bytes as before this call. Standard input may give fewer, since it may have been read.
        ensures again { is_some name.entry ≡ true → gives self.new ≡ gives self.old }
        ensures same { same self.new ≡ same self.old }
        ensures terminal { terminal self.new ≡ terminal self.old }
        ensures reports_outputs { reports_outputs self.new ≡ reports_outputs self.old };

    /// Closes an input, and adds its failures to those of the world. Returns the error of the input's last failure, or None if the input hasn't
    /// failed.
    fn close(&mut self, source: ReadSource<Self::Input>) -> Option<io::Error>
        requires countable { (seen self.old).failures + failures_of source ≤ u64.MAX }
        ensures cause { result ≡ cause_of source }
        ensures last { 0 < failures_of source → (seen self.new).cause ≡ option_map error_kind result }
        ensures kept { failures_of source ≡ 0 → (seen self.new).cause ≡ (seen self.old).cause }
        ensures asked { (seen self.new).asked ≡ (seen self.old).asked }
        ensures counted { (seen self.new).failures ≡ (seen self.old).failures + failures_of source }
        ensures again { gives self.new ≡ gives self.old }
        ensures same { same self.new ≡ same self.old }
        ensures terminal { terminal self.new ≡ terminal self.old }
        ensures reports_outputs { reports_outputs self.new ≡ reports_outputs self.old };

    /// Whether there is a regular file of this name. A caller can check this first, since opening another kind of file may wait, and reading it may
    /// never end.
    fn is_file(&self, name: &str) -> bool
        ensures { IfSome (regular self.now name.now) (λ is. result ≡ is) };

    /// Whether `file` is a name of the regular file that is the input. The input is the file named `input`, or standard input if `input` is None.
    fn is_input(&self, input: Option<&str>, file: &str) -> bool
        ensures { IfSome (same self.now (option_map (λ n. n.now) input.entry) file.now) (λ is. result ≡ is) };

    /// Whether standard output is a terminal.
    fn is_output_terminal(&self) -> bool
        ensures { IfSome (terminal self.now) (λ is. result ≡ is) };

    /// Writes this line to standard error if standard input is a terminal, so that the person at the terminal knows what the program waits for.
    /// Nothing reports it if the line can't be written.
    fn announce(&self, line: &str);

    /// Creates the file of this name, or empties it if it exists. If `name` is None, the output is standard output. Nothing has been written to the
    /// new output. A refusal is counted as a failure of the world.
    fn create(self, name: Option<&str>) -> Result<Self::Output, Refused<Self>>
        requires countable { (seen self).failures < u64.MAX }
        ensures created { IfOk result (λ output. Self.Output.seen output ≡ fresh_output (reported_if (reports_outputs self) (option_map (λ n. n.now) name.entry) [])) }
        ensures kept { IfErr result (λ refused. reports_outputs refused.world ≡ reports_outputs self) }
        ensures refused { IfErr result (λ refused.
            HasRefused (creating (option_map (λ n. n.now) name.entry)) (error_kind refused.cause) (seen self) (seen refused.world)) };
}

/// The error of a world that refused to create an output.
#[derive(Drop)]
pub struct Refused<W> {
    /// The world, in which no output was created.
    pub world: W,
    /// The error with which the world refused.
    pub cause: io::Error,
}
