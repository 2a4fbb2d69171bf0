//! Writes lines for the person who runs the program.
ghost use Rattle.std.specs.Prelude.{◌≡◌};

use std::io::Write;

/// Writes this line, and returns this status. The status is the same if the line can't be written, since nothing could report that failure.
pub fn report_line<T: Write>(to: &mut T, line: &[u8], status: u8) -> u8
    ensures { result ≡ status }
{
    let _ = to.write_all(line);
    status
}
