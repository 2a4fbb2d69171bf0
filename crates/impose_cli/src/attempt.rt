//! Attempts to write an output.
ghost use Rattle.std.specs.Prelude.{◌≡◌, Err};
ghost use Rattle.world.specs.declared.rest.Rest.TheVariants as rests;

use impose_messages::ImposeFault;
use world::{Rest, World};

/// The outcome of an attempt to write, and the world or output that is left after it.
#[derive(Drop)]
pub(crate) struct Attempt<W: World, T> {
    pub outcome: Result<T, ImposeFault>,
    pub rest: Rest<W, W::Output>,
}

/// An attempt that ended with this fault before an output was created. It leaves the world.
pub(crate) fn refused_before<W: World, T>(fault: ImposeFault, world: W) -> Attempt<W, T>
    ensures outcome { result.outcome ≡ Err fault }
    ensures rest { result.rest ≡ rests.World world }
{
    Attempt {
        outcome: Err(fault),
        rest: Rest::World(world),
    }
}
