//! The whole program, over a world of files and standard streams.
ghost use Rattle.std.specs.Prelude.{◌≡◌, ◌+◌, ◌<◌, ◌≤◌, drop, map, option_map, string_bytes, vec_len};
ghost use Rattle.world.specs.Input.{document_in};
ghost use Rattle.std.specs.Prelude.{Some, IfSome, IfOk, IfErr, OnOk};
ghost use Rattle.impose_cli.specs.Endings.{edge_of_world, shown};
ghost use Rattle.impose_cli.specs.Finished.{HasFinished};
ghost use Rattle.impose_cli.specs.Programs.{EndsRequest, EndsProgram, FindsHome, HasGiven, IsCreatedFor, IsDrawnOver, IsForTerminal, IsReadOf, FailsToRead};
ghost use Rattle.impose_cli.specs.Programs.{IsUnread, MakesProduct, Prints, ShowsSheets, Writes, status_of};
ghost use Rattle.impose_words.specs.Words.{Entered, ReadsRequest};

use crate::attempt::{Attempt, refused_before};
use crate::fronts::{finds_foreign, front_of};
use crate::look::{Overview, look_text};
use crate::precheck::check_request;
use crate::printed::spec_text;
use crate::runs::run_on_document;
use command_words::name_of;
use guard::RoomyText;
use impose_messages::{Done, ImposeFault, fault_status};
use impose_words::{ImposeRequest, Product, read_command};
use lengths::Paper;
use papers::default_paper;
use std::alloc::Global;
use std::sync::Wait;
use std::thread::Threads;
use world::{
    Output, ReadFault, ReadSource, Rest, World, padding, read_input_after, write_and_flush,
};

/// The end of the program, as its caller sees it.
#[derive(Drop)]
pub struct Ended<W: World> {
    /// The request that the command line makes, if it makes one.
    pub request: Option<ImposeRequest>,
    /// The result, or the fault. A fault may come after part of the output was written.
    pub outcome: Result<Done, ImposeFault>,
    /// The world if no output was created in it, otherwise the output.
    pub rest: Rest<W, W::Output>,
}

impl<W: World> Ended<W> {
    /// The exit status: 0 without a fault, otherwise the status of the fault.
    pub fn status(&self) -> u8
        ensures { result ≡ status_of self.now.outcome }
    {
        match &self.outcome {
            Ok(_) => 0,
            Err(fault) => fault_status(fault),
        }
    }
}

/// The whole program. It reads the command line, whose first word is the program's name. It finds the user's default paper from `paper_size`, the
/// value of `PAPERSIZE`, and from /etc/papersize. It reads the start of the output file, which may hold another program's document, and checks the
/// request. Then it reads the whole input and closes it. Finally it imposes the pages, prints the specification, or writes the list or the drawing of
/// the sheets.
///
/// The output is created only when nothing is left that could be refused. A refused request therefore creates no output, and the input and the output
/// may be the same file.
pub fn impose<R: Threads + Wait + Sync, W: World>(
    rt: &R,
    alloc: Global,
    words: &[String],
    paper_size: &[u8],
    mut world: W,
) -> Ended<W>
    requires countable { (W.seen world).failures + 2 < u64.MAX }
    ensures ended { EndsProgram (map string_bytes words.now) paper_size.now (record {
      gives = W.gives world;
      regular = W.regular;
      same = W.same world;
      terminal = W.terminal world;
      edge = edge_of_world (W.reports_outputs world) W.seen W.Output.seen;
    }) result.request result.outcome world result.rest }
    // The request of `ended` is what the words ask for.
    ensures asked { IfSome result.request (λ r. Entered (map string_bytes words.now) (λ name found. ReadsRequest name found r)) }
    // If the program succeeds and sheets were asked for, exactly their text was written. This is a part of `ended` that needs fewer definitions.
    ensures finished { HasFinished result.request result.outcome (W.gives world) (W.reports_outputs world) (shown W.Output.seen result.rest) }
    // If the request is refused, no output has been created, and the world is given back. If an output has been created, the request
    // was carried out, or a write failed, or memory ran out.
    ensures created { IsCreatedFor result.outcome result.rest }
{
    match read_command(alloc, words) {
        Ok(read) => {
            let request = at_home(read, home_of(paper_size, &mut world));
            let is_foreign = finds_foreign(&request, &mut world);
            let attempt = carry_out(rt, alloc, &request, is_foreign, world);
            Ended {
                request: Some(request),
                outcome: attempt.outcome,
                rest: attempt.rest,
            }
        }
        Err(fault) => Ended {
            request: None,
            outcome: Err(ImposeFault::Command(fault)),
            rest: Rest::World(world),
        },
    }
}

/// The request, with `home` as the user's default paper.
fn at_home(request: ImposeRequest, home: Paper) -> ImposeRequest
    ensures { result ≡ record request { default_paper = home } }
{
    ImposeRequest {
        default_paper: home,
        ..request
    }
}

/// The file that names the user's default paper.
const HOME_FILE: &str = "/etc/papersize";

/// The largest number of bytes of /etc/papersize that are read.
const HOME_BYTES: usize = 4_096;

/// The user's default paper, from the value of `PAPERSIZE` and the start of /etc/papersize. A file that can't be read, or isn't a regular file,
/// counts as empty. No memory is allocated.
fn home_of<W: World>(paper_size: &[u8], world: &mut W) -> Paper
    requires countable { (W.seen world.old).failures < u64.MAX }
    ensures home { FindsHome paper_size.now (W.gives world.old) (W.regular world.old) (W.seen world.old) (W.seen world.new) result }
    ensures again { W.gives world.new ≡ W.gives world.old }
    ensures same { W.same world.new ≡ W.same world.old }
    ensures terminal { W.terminal world.new ≡ W.terminal world.old }
    ensures reports_outputs { W.reports_outputs world.new ≡ W.reports_outputs world.old }
{
    let mut front = [0; HOME_BYTES];
    let count = front_of(HOME_FILE, &mut front, world);
    default_paper(paper_size, &front[..count])
}

/// Checks the request, reads the input, and writes the output that the request asks for. `is_foreign` says whether another program's document is in
/// the output file.
fn carry_out<R: Threads + Wait + Sync, W: World>(
    rt: &R,
    alloc: Global,
    request: &ImposeRequest,
    is_foreign: bool,
    mut world: W,
) -> Attempt<W, Done>
    requires countable { (W.seen world).failures < u64.MAX }
    ensures { EndsRequest W.seen request.now (W.gives world) (W.same world) (W.terminal world) is_foreign (edge_of_world (W.reports_outputs world) W.seen W.Output.seen) result.outcome world result.rest
        (shown W.Output.seen result.rest) }
{
    match check_request(alloc, request) {
        Ok(()) => {}
        Err(fault) => return refused_before(fault, world),
    }
    if is_drawn_over(request, &world) {
        return refused_before(ImposeFault::OverInput, world);
    }
    if is_for_terminal(request, &world) {
        return refused_before(ImposeFault::OnTerminal, world);
    }
    if is_foreign {
        return refused_before(ImposeFault::OverDocument, world);
    }
    if request.infile.is_none() && !request.is_quiet {
        world.announce(READING);
    }
    match roomy_input(alloc, name_of(&request.infile), &mut world) {
        Ok(input) => make(rt, alloc, request, input, world),
        Err(fault) => refused_before(fault, world),
    }
}

/// Whether the drawing of the sheets would be written to the input file, even under another name.
fn is_drawn_over<W: World>(request: &ImposeRequest, world: &W) -> bool
    ensures { IsDrawnOver (W.same world.now) request.now.product (option_map string_bytes request.now.infile) result }
{
    match &request.product {
        Product::Picture(Some(file)) => world.is_input(name_of(&request.infile), file.as_str()),
        Product::Picture(None) | Product::Sheets | Product::Specification | Product::Plan => false,
    }
}

/// Whether sheets would be written to standard output, and that is a terminal.
fn is_for_terminal<W: World>(request: &ImposeRequest, world: &W) -> bool
    ensures { IsForTerminal (W.terminal world.now) request.now.product (option_map string_bytes request.now.outfile) result }
{
    match (&request.product, &request.outfile) {
        (Product::Sheets, None) => world.is_output_terminal(),
        _ => false,
    }
}

/// The line that says that a terminal is read.
const READING: &str = "impose: reading the document from standard input\n";

/// Makes the kind of output that the request asks for from this input, and writes it.
fn make<R: Threads + Wait + Sync, W: World>(
    rt: &R,
    alloc: Global,
    request: &ImposeRequest,
    input: RoomyText,
    world: W,
) -> Attempt<W, Done>
    requires countable { (W.seen world).failures < u64.MAX }
    ensures { MakesProduct request.now.product request.now input.items (edge_of_world (W.reports_outputs world) W.seen W.Output.seen) result.outcome world result.rest
        (shown W.Output.seen result.rest) }
{
    match &request.product {
        Product::Sheets => run_on_document(rt, alloc, request, input, world),
        Product::Specification => print_input(alloc, request, input, world),
        Product::Plan => show_input(alloc, request, input, Overview::Plan, None, world),
        Product::Picture(file) => {
            show_input(
                alloc,
                request,
                input,
                Overview::Picture,
                name_of(file),
                world,
            )
        }
    }
}

/// Reads the file of this name, or standard input if there is no name. Returns its document, with room for the guard before it. The error is a lack
/// of memory if memory was refused, otherwise `Read`.
fn roomy_input<W: World>(
    alloc: Global,
    name: Option<&str>,
    world: &mut W,
) -> Result<RoomyText, ImposeFault>
    requires countable { (W.seen world.old).failures < u64.MAX }
    ensures read { IfOk result (λ input.
        IsReadOf (W.gives world.old (option_map (λ n. n.now) name.entry)) input.items) }
    ensures given { IfOk result (λ _. HasGiven (option_map (λ n. n.now) name.entry) (W.seen world.old) (W.seen world.new)) }
    ensures refused { IfErr result (FailsToRead (option_map (λ n. n.now) name.entry) (W.seen world.old) (W.seen world.new)) }
    ensures reports_outputs { W.reports_outputs world.new ≡ W.reports_outputs world.old }
{
    match world.open(name) {
        Ok(input) => read_from(alloc, input, world),
        Err(error) => Err(ImposeFault::unread(Some(error))),
    }
}

/// The number of bytes before the document that are kept free for the guard. They are enough for sheets of any paper.
const ROOM: u32 = 2_560;

/// Reads an input of this world, and closes it. Returns its document, with room for the guard before it. The error is a lack of memory if memory was
/// refused, otherwise `Read`.
fn read_from<W: World>(
    alloc: Global,
    input: W::Input,
    world: &mut W,
) -> Result<RoomyText, ImposeFault>
    requires countable { (W.seen world.old).failures < u64.MAX }
    ensures read { IfOk result (λ document. IsReadOf (W.Input.remaining input) document.items) }
    ensures asked { (W.seen world.new).asked ≡ (W.seen world.old).asked }
    ensures steady { OnOk result ((W.seen world.new).failures ≡ (W.seen world.old).failures) }
    ensures refused { IfErr result (IsUnread (W.seen world.old) (W.seen world.new)) }
    ensures reports_outputs { W.reports_outputs world.new ≡ W.reports_outputs world.old }
{
    let mut source = ReadSource::new(input);
    let read = read_input_after(alloc, ROOM, &mut source);
    let cause = world.close(source);
    match read {
        Ok(bytes) => Ok(roomy_document(bytes)),
        Err(ReadFault::NoMemory) => Err(ImposeFault::no_memory()),
        Err(ReadFault::Device) => Err(ImposeFault::unread(cause)),
    }
}

/// The document in an input before which `ROOM` bytes are free. White space and Ctrl-D before the document are left out.
fn roomy_document(bytes: Vec<u8>) -> RoomyText
    requires { 2_560 ≤ vec_len bytes }
    ensures { result.items ≡ document_in (drop 2_560 bytes.items) }
{
    let (_, input) = bytes.as_slice().split_at(ROOM as usize);
    let start = ROOM as usize + padding(input);
    RoomyText::with_headroom(start, bytes)
}

/// Prints the specification, with a command line of pstops that places pages in the same way, to standard output. If the request is refused, no
/// output is created.
fn print_input<W: World>(
    alloc: Global,
    request: &ImposeRequest,
    input: RoomyText,
    world: W,
) -> Attempt<W, Done>
    requires countable { (W.seen world).failures < u64.MAX }
    ensures { Prints request.now input.items (edge_of_world (W.reports_outputs world) W.seen W.Output.seen) result.outcome world result.rest
        (shown W.Output.seen result.rest) }
{
    match spec_text(alloc, request, input) {
        Ok(text) => create_with_text(None, text.as_slice(), Done::Printed, world),
        Err(fault) => refused_before(fault, world),
    }
}

/// Writes the list or drawing of the sheets to the file of this name, or to standard output if there is no name. If the request is refused, no output
/// is created.
fn show_input<W: World>(
    alloc: Global,
    request: &ImposeRequest,
    input: RoomyText,
    look: Overview,
    name: Option<&str>,
    world: W,
) -> Attempt<W, Done>
    requires countable { (W.seen world).failures < u64.MAX }
    ensures { ShowsSheets look (option_map (λ n. n.now) name.entry) request.now input.items (edge_of_world (W.reports_outputs world) W.seen W.Output.seen) result.outcome
        world result.rest (shown W.Output.seen result.rest) }
{
    match look_text(alloc, request, input, look) {
        Ok(text) => create_with_text(name, text.as_slice(), Done::Shown, world),
        Err(fault) => refused_before(fault, world),
    }
}

/// Creates the output, which is the file of this name, or standard output if there is no name, writes a text to it, and flushes it.
fn create_with_text<W: World>(
    name: Option<&str>,
    text: &[u8],
    done: Done,
    world: W,
) -> Attempt<W, Done>
    requires countable { (W.seen world).failures < u64.MAX }
    ensures { Writes (option_map (λ n. n.now) name.entry) text.now done (edge_of_world (W.reports_outputs world) W.seen W.Output.seen) result.outcome world result.rest
        (shown W.Output.seen result.rest) }
{
    let mut output = match world.create(name) {
        Ok(output) => output,
        Err(refused) => {
            let fault = ImposeFault::Write {
                written: 0,
                cause: Some(refused.cause),
            };
            return refused_before(fault, refused.world);
        }
    };
    match write_and_flush(&mut output, text) {
        Ok(()) => Attempt {
            outcome: Ok(done),
            rest: Rest::Output(output),
        },
        Err(broken) => {
            let fault = ImposeFault::Write {
                written: broken.written as u64,
                cause: output.cause(),
            };
            Attempt {
                outcome: Err(fault),
                rest: Rest::Output(output),
            }
        }
    }
}
