//! Gates, which are called at each step of a run and at each look for work.

/// A step of a run.
#[derive(Clone, Copy, Debug, PartialEq, Eq)]
pub enum Step {
    /// The prepared page with this number, counted from 0, is delivered.
    Deliver(u32),
    /// The sheet with this number, counted from 0, is imposed.
    Impose(u32),
}

/// A look for work that another thread may have handed over.
#[derive(Clone, Copy, Debug, PartialEq, Eq)]
pub enum Look {
    /// An imposer looks for a sheet in the queue.
    Queue,
    /// The collector looks for finished sheets in the channel.
    Channel,
}

/// A gate is called before and after each step of a run and each look for work, by the thread that takes the step or looks. It may make the thread
/// wait; tests use this to order the steps.
pub trait Gate {
    /// Is called before this step.
    fn before(&self, step: Step);

    /// Is called after this step.
    fn after(&self, step: Step);

    /// Is called before each look. By default it does nothing. The number of looks depends on how threads are scheduled.
    fn before_look(&self, _look: Look) {}

    /// Is called after each look. By default it does nothing.
    fn after_look(&self, _look: Look) {}
}

/// A gate that does nothing.
#[derive(Clone, Copy, Debug)]
pub struct Open;

impl Gate for Open {
    fn before(&self, _step: Step) {}

    fn after(&self, _step: Step) {}
}
