//! The first bytes of files, which are read before a request is carried out.
ghost use Rattle.std.specs.Prelude.{◌≡◌, ◌<◌, ◌≤◌, length, take};
ghost use Rattle.impose_cli.specs.Fronts as meaning;

use command_words::name_of;
use impose_words::ImposeRequest;
use memchr::memmem::find;
use world::{ReadSource, World, padding, read_front};

/// Reads the first bytes of the regular file of this name into `front`, and returns their number. It is 0 for another kind of file, and for a file
/// that can't be read. No memory is allocated.
pub(crate) fn front_of<W: World>(name: &str, front: &mut [u8], world: &mut W) -> usize
    requires countable { (W.seen world.old).failures < u64.MAX }
    ensures within { result ≤ length front.new }
    ensures looks { meaning.LooksAt name.now (length front.old) (W.gives world.old) (W.regular world.old) (W.seen world.old) (W.seen world.new)
        (take result front.new) }
    ensures again { W.gives world.new ≡ W.gives world.old }
    ensures same { W.same world.new ≡ W.same world.old }
    ensures terminal { W.terminal world.new ≡ W.terminal world.old }
    ensures reports_outputs { W.reports_outputs world.new ≡ W.reports_outputs world.old }
{
    if !world.is_file(name) {
        return 0;
    }
    let Ok(file) = world.open(Some(name)) else {
        return 0;
    };
    let mut source = ReadSource::new(file);
    let read = read_front(front, &mut source);
    drop(world.close(source));
    match read {
        Ok(count) => count,
        Err(_) => 0,
    }
}

/// The largest number of bytes of OUTFILE that are read.
const FRONT_BYTES: usize = 4_096;

/// Whether the sheets would replace another program's document: OUTFILE exists, isn't the input, and begins as a document without a mark of impose
/// does. False with `--replace`, if the sheets don't go to a file, and for a file that can't be read or isn't a regular one.
pub(crate) fn finds_foreign<W: World>(request: &ImposeRequest, world: &mut W) -> bool
    requires countable { (W.seen world.old).failures < u64.MAX }
    ensures found { meaning.FindsForeign request.now (W.gives world.old) (W.regular world.old) (W.same world.old) (W.seen world.old) (W.seen world.new) result }
    ensures again { W.gives world.new ≡ W.gives world.old }
    ensures same { W.same world.new ≡ W.same world.old }
    ensures terminal { W.terminal world.new ≡ W.terminal world.old }
    ensures reports_outputs { W.reports_outputs world.new ≡ W.reports_outputs world.old }
{
    let Some(file) = request.file_to_spare() else {
        return false;
    };
    if world.is_input(name_of(&request.infile), file) {
        return false;
    }
    let mut front = [0; FRONT_BYTES];
    let count = front_of(file, &mut front, world);
    let front = &front[..count];
    is_document(front) && !is_marked(front)
}

/// Whether a file with these first bytes is a PDF, a PostScript document, a printer's job, or an EPS with a binary header.
fn is_document(front: &[u8]) -> bool
    ensures { result ≡ meaning.is_document front.now }
{
    let (_, document) = front.split_at(padding(front));
    front.starts_with(b"%PDF-")
        || (document.starts_with(b"%!")
            || (front.starts_with(b"\x1b%-12345X") || front.starts_with(b"\xc5\xd0\xd3\xc6")))
}

/// Whether these bytes have a mark of impose: the first words of the guard, or those before a page on a sheet.
fn is_marked(front: &[u8]) -> bool
    ensures { result ≡ meaning.is_marked front.now }
{
    find(front, b"userdict /Impose").is_some()
}
