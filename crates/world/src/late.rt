//! Outputs that are created only when the first byte is to be written.
ghost use Rattle.std.specs.Prelude.{◌≡◌, ◌<◌, ◌||◌, [], List, Option, None, is_some, option_map, true, ℕ};
ghost use Rattle.std.below.core.specs.declared.int.u64.TheConstants.{MAX as most_failures};
ghost use Rattle.std.specs.Option.{ForSome};
ghost use Rattle.std.specs.IoError.{error_kind};
ghost use Rattle.world.specs.Worlds.{WorldView, fresh_world};
ghost use Rattle.world.specs.Creating.{IsAskedOnce};

use crate::output::Output;
use crate::world::{Refused, World};
use std::io;
use std::marker::{Brand, PhantomData};

/// The state of a world before an output is created, as contracts see it, and the output's name. This is a ghost parameter that the proof of each
/// call chooses; the trait has no code.
pub trait Before {
    ghost seen: { WorldView };

    ghost name: { Option (List ℕ) };
}

impl Before for Brand {
    ghost seen = { fresh_world };

    ghost name = { None };
}

/// A request for an output: the name of the output (None for standard output), and the world that is to create it.
#[derive(Drop)]
pub struct Asked<'n, W: World> {
    pub name: Option<&'n str>,
    pub world: W,
}

/// A world that refused to create an output, and the number of writes that have failed because of the refusal.
#[derive(Drop)]
pub struct Denied<W> {
    pub refused: Refused<W>,
    pub times: u64,
}

/// An output that is created only when its first byte is to be written. Until then it keeps the world that is to create it. If the world refuses, the
/// first write and all later ones fail with the same error, and the world isn't asked again.
#[derive(Drop)]
pub struct Late<'n, W: World, B: Before> {
    name: Option<&'n str>,
    waiting: Option<W>,
    denied: Option<Denied<W>>,
    output: Option<W::Output>,
    of: PhantomData<B>,
    ghost named: { option_map (λ n. n.now) name ≡ B.name },
    ghost countable: { B.seen.failures < most_failures },
    ghost unasked: { ForSome waiting (λ w. W.seen w ≡ B.seen) },
    ghost refused: { ForSome denied (λ d. IsAskedOnce B.name d.refused.cause B.seen (W.seen d.refused.world)) },
    ghost there: { is_some denied || is_some waiting || is_some output ≡ true },
    ghost begun: { ForSome output (λ o. (W.Output.seen o).failures ≡ 0 → (W.Output.seen o).has_taken ≡ true) },
}

/// The state in which a [`Late`] output has ended.
#[derive(Drop)]
pub enum Fate<W, O> {
    /// The output wasn't created, since nothing was written. The world is returned.
    Unasked(W),
    /// The world was asked once to create the output, and refused.
    Refused(Refused<W>),
    /// The output was created.
    Created(O),
}

impl<'n, W: World, B: Before> Late<'n, W, B> {
    ghost use Rattle.world.specs.Outputs.{fresh_output, reported_if};
    ghost use Rattle.world.specs.Lates.{IsFate};

    /// Makes an output that isn't created yet. Its world is asked only when the first byte is to be written.
    pub fn new(asked: Asked<'n, W>) -> Late<'n, W, B>
        requires named { option_map (λ n. n.now) asked.name ≡ B.name }
        requires seen { W.seen asked.world ≡ B.seen }
        requires countable { B.seen.failures < u64.MAX }
        ensures fresh { ⟦<Late<'n, W, B> as Output>⟧.seen result ≡ fresh_output (reported_if (W.reports_outputs asked.entry.world) B.name []) }
        ensures unfailed { (⟦<Late<'n, W, B> as Output>⟧.seen result).failures ≡ 0 }
    {
        let Asked { name, world } = asked;
        Late {
            name,
            waiting: Some(world),
            denied: None,
            output: None,
            of: PhantomData,
        }
    }

    /// Ends the use of the output, and returns the state in which it has ended.
    pub fn fate(self) -> Fate<W, W::Output>
        ensures { IsFate W.reports_outputs W.seen W.Output.seen B.name B.seen (⟦<Late<'n, W, B> as Output>⟧.seen self.entry) result }
    {
        let Late {
            name: _,
            waiting,
            denied,
            output,
            of: _,
        } = self;
        match (denied, waiting, output) {
            (Some(denied), _, _) => Fate::Refused(denied.refused),
            (None, Some(world), _) => Fate::Unasked(world),
            (None, None, Some(output)) => Fate::Created(output),
            (None, None, None) => unreachable!(),
        }
    }
}

impl<'n, W: World, B: Before> Output for Late<'n, W, B> {
    ghost use Rattle.world.specs.Lates.{late_view};

    ghost seen = { λ late. late_view W.reports_outputs W.Output.seen B.name late.denied late.waiting late.output };

    fn write(&mut self, bytes: &[u8]) -> io::Result<usize> {
        if let Some(denied) = &mut self.denied {
            denied.times += 1;
            return Err(denied.refused.cause);
        }
        let Some(world) = self.waiting.take() else {
            return match &mut self.output {
                Some(output) => output.write(bytes),
                None => unreachable!(),
            };
        };
        match world.create(self.name) {
            Ok(created) => {
                let mut output = created;
                let written = output.write(bytes);
                self.output = Some(output);
                written
            }
            Err(refused) => {
                let cause = refused.cause;
                self.denied = Some(Denied { refused, times: 1 });
                Err(cause)
            }
        }
    }

    fn flush(&mut self) -> io::Result<()> {
        if self.denied.is_some() || self.waiting.is_some() {
            return Ok(());
        }
        match &mut self.output {
            Some(output) => output.flush(),
            None => Ok(()),
        }
    }

    fn failures(&self) -> u64 {
        match (&self.denied, &self.waiting, &self.output) {
            (Some(denied), _, _) => denied.times,
            (None, None, Some(output)) => output.failures(),
            _ => 0,
        }
    }

    fn cause(&self) -> Option<io::Error> {
        match (&self.denied, &self.waiting, &self.output) {
            (Some(denied), _, _) => Some(denied.refused.cause),
            (None, None, Some(output)) => output.cause(),
            _ => None,
        }
    }
}
