//! Reads the start of an input.
ghost use Rattle.std.specs.Prelude.{◌<◌, ◌≤◌, IfOk, length, take};
ghost use Rattle.world.specs.Input.{Counts, IsFirst};

use crate::read::fill_after;
use crate::source::{Source, SourceFault};

/// Reads the first bytes of the source into the buffer, until the buffer is full or the source ends. Returns the number of bytes read. No memory is
/// allocated. The only error is a failure of the source.
pub fn read_front<S: Source>(buffer: &mut [u8], source: &mut S) -> Result<usize, SourceFault>
    requires countable { (S.seen source.old).failures < u64.MAX }
    ensures within { IfOk result (λ count. count ≤ length buffer.new) }
    ensures read { IfOk result (λ count. IsFirst (length buffer.old) (S.seen source.old).bytes (take count buffer.new)) }
    ensures counted { Counts (S.seen source.old).failures (S.seen source.new).failures result }
{
    let mut filled = 0;
    while filled < buffer.len() {
        let count = fill_after(source, buffer, filled)?;
        if count == 0 {
            break;
        }
        filled += count;
    }
    Ok(filled)
}
