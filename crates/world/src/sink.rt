//! Creates buffered outputs.
ghost use Rattle.std.specs.Prelude.{◌≡◌, ◌<◌, [], option_map, IfOk, IfErr};
ghost use Rattle.world.specs.Outputs.{reported_if};
ghost use Rattle.world.specs.Creating.{IsUncreated};

use crate::buffered::Buffered;
use crate::world::{Refused, World};
use sheet_writer::Sink;
use std::alloc::Global;
use std::io;
use std::io::ErrorKind;

/// Creates the output of this name (None for standard output), with a buffer of `capacity` bytes in front of it. An error returns the world and the
/// cause. If memory for the buffer is refused, the world is unchanged and the cause is `OutOfMemory`. If the world refuses to create the output, it
/// has counted this failure and gives the cause.
pub fn created<W: World>(
    alloc: Global,
    capacity: usize,
    name: Option<&str>,
    world: W,
) -> Result<Buffered<W::Output>, Refused<W>>
    requires countable { (W.seen world).failures < u64.MAX }
    ensures bytes { IfOk result (λ sink. (⟦<Buffered<W::Output> as Sink>⟧.seen sink).bytes
        ≡ reported_if (W.reports_outputs world) (option_map (λ n. n.now) name.entry) []) }
    ensures fresh { IfOk result (λ sink. (⟦<Buffered<W::Output> as Sink>⟧.seen sink).failures ≡ 0) }
    ensures refused { IfErr result (λ refused.
        IsUncreated W.seen (option_map (λ n. n.now) name.entry) world refused.world refused.cause) }
{
    let Ok(buffer) = Vec::with_capacity(alloc, capacity) else {
        let cause = io::Error::from(ErrorKind::OutOfMemory);
        return Err(Refused { world, cause });
    };
    let output = world.create(name)?;
    Ok(Buffered::new(buffer, output))
}
