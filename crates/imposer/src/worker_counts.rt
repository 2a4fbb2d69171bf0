//! The numbers of worker threads of a run.
ghost use Rattle.std.specs.Prelude.{◌↔◌, IsTrue};
ghost use Rattle.imposer.specs.Workers.{AreWorkers};

/// The number of threads that prepare pages, and the number of threads that impose sheets. A run needs from 1 to 16 of each.
#[derive(Clone, Copy, Debug, PartialEq, Eq)]
pub struct Workers {
    pub preparers: u32,
    pub imposers: u32,
}

impl Workers {
    /// Whether each number is from 1 to 16.
    pub fn are_valid(self) -> bool
        ensures { IsTrue result ↔ AreWorkers self }
    {
        (1..=16).contains(&self.preparers) && (1..=16).contains(&self.imposers)
    }
}
