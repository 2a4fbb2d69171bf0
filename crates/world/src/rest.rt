//! The world or the output that is left after a program has ended.

/// The world or the output that is left after a program has ended. Creating an output uses the world up, so only one of the two is left.
#[derive(Drop)]
pub enum Rest<W, O> {
    /// The world. No output was created in it.
    World(W),
    /// The output that was created in the world.
    Output(O),
}
