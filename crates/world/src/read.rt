//! Reads whole inputs.
ghost use Rattle.std.specs.Prelude.{◌≡◌, ◌+◌, ◌<◌, ◌≤◌, IfOk, IfErr, OnOk, OnErr, vec_len};
ghost use Rattle.std.specs.Prelude.{length, take, drop, max, replicate};
ghost use Rattle.std.specs.Io.KnownBytes.{Consumes, IsAtEnd, Keeps};
ghost use Rattle.world.specs.Input.{ConsumesAtMost, Counts, Fills, IsFaultOf, IsFirst, most_bytes};
ghost use Rattle.world.specs.declared.read.ReadFault.TheVariants.{Device, NoMemory};

use crate::source::{Source, SourceFault};
use std::alloc::{AllocError, Global};

/// The greatest number of bytes that are read. It is one more than an input may have, so that an input that is too long is noticed.
pub const MOST_BYTES: usize = 1_073_741_825;

/// The number of bytes for which a source is offered room first. It is small, because most documents are small and touching memory takes time.
const FIRST_PIECE: usize = 16_384;

/// The least number of bytes for which a source is offered room after the vector has grown beyond `FIRST_PIECE` bytes, unless fewer may still be
/// read.
const LEAST_ROOM: usize = 65_536;

/// The greatest number of bytes that are cleared at a time before a source fills them. It is small enough for these bytes to stay in the processor's
/// cache.
const PIECE: usize = 262_144;

/// The number of bytes from which an input counts as large. Room for the longest possible input is then reserved at once, so that no byte has to be
/// moved later.
const LARGE: usize = 1_048_576;

/// The reason why an input couldn't be read.
#[derive(Clone, Copy, Debug, PartialEq, Eq)]
pub enum ReadFault {
    /// The source failed.
    Device,
    /// Memory for the bytes was refused.
    NoMemory,
}

impl From<AllocError> for ReadFault {
    ghost from_gives = { λ _ fault. fault ≡ NoMemory };

    fn from(_error: AllocError) -> ReadFault {
        ReadFault::NoMemory
    }
}

impl From<SourceFault> for ReadFault {
    ghost from_gives = { λ _ fault. fault ≡ Device };

    fn from(_fault: SourceFault) -> ReadFault {
        ReadFault::Device
    }
}

/// All bytes of the source, or the first [`MOST_BYTES`] if there are more. The error is `Device` if the source fails, and `NoMemory` if memory is
/// refused.
///
/// The bytes are read directly into the vector, which grows piece by piece. Once it has 1,048,576 bytes, address space for the longest possible input
/// is reserved until the input ends. If this space is refused, the vector goes on growing piece by piece. After an error the bytes read so far are
/// lost.
pub fn read_input<S: Source>(alloc: Global, source: &mut S) -> Result<Vec<u8>, ReadFault>
    requires countable { (S.seen source.old).failures < u64.MAX }
    ensures within { IfOk result (λ bytes. vec_len bytes ≤ most_bytes) }
    ensures read { IfOk result (λ bytes. IsFirst most_bytes (S.seen source.old).bytes bytes.items) }
    ensures rest { IfOk result (λ bytes. Consumes (S.seen source.old).bytes (S.seen source.new).bytes bytes.items) }
    // It takes at most that many bytes from the source, even if it fails.
    ensures most { ConsumesAtMost most_bytes (S.seen source.old).bytes (S.seen source.new).bytes }
    // The error is Device exactly if the source failed in this call.
    ensures steady { OnOk result ((S.seen source.new).failures ≡ (S.seen source.old).failures) }
    ensures refused { IfErr result (IsFaultOf (S.seen source.old).failures (S.seen source.new).failures) }
{
    read_input_after(alloc, 0, source)
}

/// Reads like `read_input`, but leaves `room` zero bytes before the input, where the caller can put other bytes later.
pub fn read_input_after<S: Source>(
    alloc: Global,
    room: u32,
    source: &mut S,
) -> Result<Vec<u8>, ReadFault>
    requires countable { (S.seen source.old).failures < u64.MAX }
    ensures room { IfOk result (λ bytes. take room bytes.items ≡ replicate room 0) }
    ensures within { IfOk result (λ bytes. vec_len bytes ≤ room + most_bytes) }
    ensures read { IfOk result (λ bytes. IsFirst most_bytes (S.seen source.old).bytes (drop room bytes.items)) }
    ensures rest { IfOk result (λ bytes.
        Consumes (S.seen source.old).bytes (S.seen source.new).bytes (drop room bytes.items)) }
    // It takes at most that many bytes from the source, even if it fails.
    ensures most { ConsumesAtMost most_bytes (S.seen source.old).bytes (S.seen source.new).bytes }
    // The error is Device exactly if the source failed in this call.
    ensures steady { OnOk result ((S.seen source.new).failures ≡ (S.seen source.old).failures) }
    ensures refused { IfErr result (IsFaultOf (S.seen source.old).failures (S.seen source.new).failures) }
{
    let mut filled = room as usize;
    let most = filled + MOST_BYTES;
    let mut bytes: Vec<u8> = Vec::new(alloc);
    bytes.resize(filled, 0)?;
    while filled < most {
        let count = fill_more(source, &mut bytes, filled, most)?;
        if count == 0 {
            break;
        }
        filled += count;
    }
    bytes.truncate(filled);
    give_back_room(&mut bytes);
    Ok(bytes)
}

/// Makes room after the first `filled` bytes if there is too little, and reads into it once. The vector has at most `most` bytes. Returns the number
/// of bytes read, which is 0 at the end of the source. The error is `Device` if the source fails, and `NoMemory` if memory is refused.
fn fill_more<S: Source>(
    source: &mut S,
    bytes: &mut Vec<u8>,
    filled: usize,
    most: usize,
) -> Result<usize, ReadFault>
    requires countable { (S.seen source.old).failures < u64.MAX }
    requires filled { filled ≤ vec_len bytes.old }
    requires more { filled < most }
    requires most { vec_len bytes.old ≤ most }
    requires enough { MOST_BYTES ≤ most }
    ensures front { take filled bytes.new.items ≡ take filled bytes.old.items }
    ensures most { vec_len bytes.new ≤ most }
    ensures ahead { vec_len bytes.new ≤ max (vec_len bytes.old) (filled + (262_144 + 65_536)) }
    ensures within { IfOk result (λ k. filled + k ≤ vec_len bytes.new) }
    ensures moved { IfOk result (λ k.
        Consumes (S.seen source.old).bytes (S.seen source.new).bytes (take k (drop filled bytes.new.items))
        × (k ≡ 0 → IsAtEnd (S.seen source.new).bytes)) }
    ensures kept { OnErr result (Keeps (S.seen source.old).bytes (S.seen source.new).bytes) }
    ensures steady { OnOk result ((S.seen source.new).failures ≡ (S.seen source.old).failures) }
    ensures refused { IfErr result (IsFaultOf (S.seen source.old).failures (S.seen source.new).failures) }
{
    make_room(bytes, filled, most)?;
    Ok(fill_after(source, bytes.as_mut_slice(), filled)?)
}

/// Makes room after the first `filled` bytes if there is too little: room for one more piece, or for all bytes that may still come if these are
/// fewer.
fn make_room(bytes: &mut Vec<u8>, filled: usize, most: usize) -> Result<(), AllocError>
    requires filled { filled ≤ vec_len bytes.old }
    requires more { filled < most }
    requires most { vec_len bytes.old ≤ most }
    requires enough { MOST_BYTES ≤ most }
    ensures front { take filled bytes.new.items ≡ take filled bytes.old.items }
    ensures most { vec_len bytes.new ≤ most }
    ensures room { OnOk result (filled < vec_len bytes.new) }

    // At most 262,144 + 65,536 bytes are cleared ahead of the bytes that were read.
    ensures ahead { vec_len bytes.new ≤ max (vec_len bytes.old) (filled + (262_144 + 65_536)) }
{
    let len = bytes.len();
    if len - filled < least_room(len) && len < most {
        if len >= LARGE {
            reserve_all(bytes, most);
        }
        bytes.resize(next_len(len, most), 0)?;
    }
    Ok(())
}

/// The least number of bytes for which a source is offered room when the vector has this length. The first piece is filled to its end before the
/// vector grows.
fn least_room(len: usize) -> usize
    ensures some { 0 < result }
    ensures few { result ≤ 65_536 }
{
    if len <= FIRST_PIECE { 1 } else { LEAST_ROOM }
}

/// The length to which a vector of the length `len` grows next: `FIRST_PIECE` if it is shorter, and otherwise `PIECE` bytes more, but at most `most`.
fn next_len(len: usize, most: usize) -> usize
    requires more { len < most }
    requires enough { MOST_BYTES ≤ most }
    ensures more { len < result }
    ensures most { result ≤ most }
    ensures piece { result ≤ len + 262_144 }
{
    if len < FIRST_PIECE {
        FIRST_PIECE
    } else {
        len + PIECE.min(most - len)
    }
}

/// Reserves address space for all bytes that may still come. The system provides memory only for bytes that are filled. If the reservation is
/// refused, the vector goes on growing piece by piece.
fn reserve_all(bytes: &mut Vec<u8>, most: usize)
    requires { vec_len bytes.old ≤ most }
    ensures same { bytes.new.items ≡ bytes.old.items }
    ensures len { vec_len bytes.new ≡ vec_len bytes.old }
{
    let _ = bytes.reserve(most - bytes.len());
}

/// Frees the unused memory of the vector, if the input is large.
fn give_back_room(bytes: &mut Vec<u8>)
    ensures same { bytes.new.items ≡ bytes.old.items }
    ensures len { vec_len bytes.new ≡ vec_len bytes.old }
{
    if bytes.len() >= LARGE {
        bytes.shrink_to_fit();
    }
}

/// Reads into the buffer once, after its first `filled` bytes. Returns the number of bytes read, which is 0 at the end of the source. The only error
/// is a failure of the source.
pub(crate) fn fill_after<S: Source>(
    source: &mut S,
    buffer: &mut [u8],
    filled: usize,
) -> Result<usize, SourceFault>
    requires room { filled < length buffer.old }
    requires countable { (S.seen source.old).failures < u64.MAX }
    ensures front { take filled buffer.new ≡ take filled buffer.old }
    ensures within { IfOk result (λ k. filled + k ≤ length buffer.new) }
    ensures moved { Fills (S.seen source.old).bytes (S.seen source.new).bytes result (drop filled buffer.new) }
    ensures counted { Counts (S.seen source.old).failures (S.seen source.new).failures result }
{
    source.fill(&mut buffer[filled..])
}
