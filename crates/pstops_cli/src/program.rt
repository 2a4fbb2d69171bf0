//! The whole program, run in a world of files and standard streams.
ghost use Rattle.std.specs.Prelude.{◌≡◌, ◌<◌, ◌⊎◌, IfOk, IfErr, map, option_map, string_bytes};
ghost use Rattle.std.specs.IoError.{error_kind};
ghost use Rattle.std.specs.declared.io.ErrorKind.TheVariants.{OutOfMemory};
ghost use Rattle.imposer.specs.declared.outcome.RunError.TheVariants as runs;
ghost use Rattle.pstops_cli.specs.declared.messages.Fault.TheVariants as faults;
ghost use Rattle.pstops_cli.specs.Programs.{CarriesOutWords, CreatesAndRuns, EndsPstops, HasGivenInput, HasRead, IsSaid};
ghost use Rattle.pstops_cli.specs.Programs.{IsReadFaultOf, IsUnreadInput, StopsBefore};
ghost use Rattle.world.specs.Input.{IsFirst, most_bytes};
ghost use Rattle.world.specs.Rests.{failures_in, shown};
ghost use Rattle.world.specs.Worlds.{HasGranted, WasAsked, opening};

use crate::command::{Request, read_command};
use crate::messages::{Fault, fault_line};
use crate::request_runs::run_request;
use command_words::name_of;
use imposer::RunError;
use std::alloc::Global;
use std::io;
use std::io::ErrorKind;
use std::sync::Wait;
use std::thread::Threads;
use world::{ReadFault, ReadSource, Rest, World, created, read_input};

/// The end of the program, as its caller sees it.
#[derive(Drop)]
pub struct ExitReport<W: World> {
    /// The exit status.
    pub status: u8,
    /// The line for standard error; empty if there is none.
    pub line: Vec<u8>,
    /// The output if one was created, otherwise the world.
    pub rest: Rest<W, W::Output>,
}

/// Runs the program: reads the request from the words after the program's name, reads the input, creates the output, writes the imposed sheets to it,
/// and flushes it. The first fault ends the program with its status and line.
///
/// The input is closed before the output is created, so both may be the same file.
pub fn pstops<R: Threads + Wait + Sync, W: World>(
    rt: &R,
    alloc: Global,
    words: &[String],
    mut world: W,
) -> ExitReport<W>
    requires countable { (W.seen world).failures < u64.MAX }
    // Either the program stopped before an output was created, or it created one output and ran the request that the words make.
    ensures ended { EndsPstops W.seen (map string_bytes words.now) (W.gives world) (W.reports_outputs world) world result.rest
        (shown W.Output.seen result.rest) (failures_in W.Output.seen result.rest) result.status result.line.items }
    // Status 0 is returned only if exactly the output was written.
    ensures finished { result.status ≡ 0 → CarriesOutWords (map string_bytes words.now) (W.gives world) (W.reports_outputs world)
        (shown W.Output.seen result.rest) }
{
    match read(alloc, words, &mut world) {
        Ok((request, input)) => run_in(rt, alloc, &request, input.as_slice(), world),
        Err(fault) => ended_with(alloc, &fault, Rest::World(world)),
    }
}

/// Reads the request from the words, and then the input of the request. The error is the fault of the first of the two that fails.
fn read<W: World>(
    alloc: Global,
    words: &[String],
    world: &mut W,
) -> Result<(Request, Vec<u8>), Fault>
    requires countable { (W.seen world.old).failures < u64.MAX }
    ensures read { IfOk result (λ read. HasRead (map string_bytes words.now) (W.gives world.old) read.0 read.1.items) }
    ensures given { IfOk result (λ read. HasGivenInput W.seen read.0 world.old world.new) }
    ensures refused { IfErr result (StopsBefore W.seen (map string_bytes words.now) world.old world.new) }
    ensures reports_outputs { W.reports_outputs world.new ≡ W.reports_outputs world.old }
{
    let request = match read_command(alloc, words) {
        Ok(request) => request,
        Err(fault) => return Err(Fault::Command(fault)),
    };
    match input_of(alloc, name_of(&request.infile), world) {
        Ok(input) => Ok((request, input)),
        Err(fault) => Err(Fault::Read(fault)),
    }
}

/// Reads the file with this name, or standard input without a name. Reading stops after `world::MOST_BYTES` bytes. The error is `NoMemory` if memory
/// is refused, and `Device` if the input can't be opened or read.
fn input_of<W: World>(
    alloc: Global,
    name: Option<&str>,
    world: &mut W,
) -> Result<Vec<u8>, ReadFault>
    requires countable { (W.seen world.old).failures < u64.MAX }
    ensures read { IfOk result (λ input.
        IsFirst most_bytes (W.gives world.old (option_map (λ n. n.now) name.entry)) input.items) }
    ensures given { IfOk result (λ _. HasGranted (opening (option_map (λ n. n.now) name.entry)) (W.seen world.old) (W.seen world.new)) }
    ensures asked { IfErr result (λ _. WasAsked (opening (option_map (λ n. n.now) name.entry)) (W.seen world.old) (W.seen world.new)) }
    ensures unread { IfErr result (λ fault. IsUnreadInput fault (W.seen world.old) (W.seen world.new)) }
    ensures reports_outputs { W.reports_outputs world.new ≡ W.reports_outputs world.old }
{
    match world.open(name) {
        Ok(input) => {
            let mut source = ReadSource::new(input);
            let read = read_input(alloc, &mut source);
            let cause = world.close(source);
            match read {
                Err(ReadFault::Device) => Err(fault_of_reading(cause)),
                read => read,
            }
        }
        Err(cause) => Err(fault_of_reading(Some(cause))),
    }
}

/// The fault of an input that couldn't be opened or read for this cause: `NoMemory` if memory was refused, otherwise `Device`.
fn fault_of_reading(cause: Option<io::Error>) -> ReadFault
    ensures { IsReadFaultOf cause result }
{
    match cause {
        Some(error) if error.kind() == ErrorKind::OutOfMemory => ReadFault::NoMemory,
        _ => ReadFault::Device,
    }
}

/// The end of the program with this fault, and with the fault's status and line. If memory for the line is refused, the line is empty and the status
/// is 3.
fn ended_with<W: World>(alloc: Global, fault: &Fault, rest: Rest<W, W::Output>) -> ExitReport<W>
    ensures said { IsSaid fault.now result.status result.line.items }
    ensures rest { result.rest ≡ rest }
{
    let (status, line) = match fault_line(alloc, fault) {
        Ok(ending) => ending,
        // There was no memory even for the line.
        Err(_) => (3, Vec::new(alloc)),
    };
    ExitReport { status, line, rest }
}

/// The size of the output's buffer, in bytes. Smaller sheets are gathered there and written together.
const WRITTEN_AT_ONCE: usize = 16_384;

/// Creates the output, runs the request, writes the sheets to the output, and flushes it.
fn run_in<R: Threads + Wait + Sync, W: World>(
    rt: &R,
    alloc: Global,
    request: &Request,
    input: &[u8],
    world: W,
) -> ExitReport<W>
    requires countable { (W.seen world).failures < u64.MAX }
    ensures { CreatesAndRuns W.seen request.now input.now (W.reports_outputs world) world result.rest (shown W.Output.seen result.rest)
        (failures_in W.Output.seen result.rest) result.status result.line.items }
{
    let name = name_of(&request.outfile);
    let mut sink = match created(alloc, WRITTEN_AT_ONCE, name, world) {
        Ok(sink) => sink,
        Err(refused) => {
            let fault = fault_of_creating(&refused.cause);
            return ended_with(alloc, &fault, Rest::World(refused.world));
        }
    };
    let (status, line) = run_request(rt, alloc, request, input, &mut sink);
    let (is_whole, output) = sink.finish();
    let rest = Rest::Output(output);
    if status == 0 && !is_whole {
        // A failed flush is reported as a failed write, whose line doesn't tell how many bytes were written.
        let fault = Fault::Run(RunError::Write { written: 0 });
        return ended_with(alloc, &fault, rest);
    }
    ExitReport { status, line, rest }
}

/// The fault to report if an output couldn't be created: `NoMemory` if memory was refused, otherwise `Create`.
fn fault_of_creating(cause: &io::Error) -> Fault
    ensures { ((error_kind cause.now ≡ OutOfMemory) × (result ≡ faults.Run (runs.NoMemory 0)))
        ⊎ (¬ (error_kind cause.now ≡ OutOfMemory) × (result ≡ faults.Create)) }
{
    if cause.kind() == ErrorKind::OutOfMemory {
        Fault::Run(RunError::NoMemory { written: 0 })
    } else {
        Fault::Create
    }
}
