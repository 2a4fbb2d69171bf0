//! The requests that a world has received.
ghost use Rattle.std.specs.Prelude.{◌≡◌, ◌++◌, ◌∷◌, [], List, Some, IfOk, IfSome, map, option_map, string_bytes};
ghost use Rattle.world.specs.Worlds.{Access};
ghost use Rattle.test_tools.specs.Traces.{access_of, accesses_in};

use std::alloc::{AllocError, Global};

/// A request to open an input, or to create an output, with its name. The name is `None` for standard input or output.
#[derive(Drop)]
pub struct Asked {
    pub creates: bool,
    pub name: Option<String>,
}

/// The requests that a world has received, in order. `None` if memory was refused for one of them.
#[derive(Drop)]
pub struct Trace {
    pub all: Option<Vec<Asked>>,
}

impl Trace {
    /// The trace of a world that has received no request.
    pub fn new(alloc: Global) -> Trace
        ensures { accesses_in result ≡ Some [] }
    {
        Trace {
            all: Some(Vec::new(alloc)),
        }
    }

    /// Adds a request to the trace: to create an output if `creates` is true, otherwise to open an input. If memory is refused for a request, the
    /// trace loses all requests and keeps no later one.
    pub fn add(&mut self, alloc: Global, creates: bool, name: Option<&str>)
        ensures { IfSome (accesses_in self.new) (λ all. (before : List Access) × (accesses_in self.old ≡ Some before)
            × (all ≡ before ++ record { creates = creates; name = option_map (λ n. n.now) name.entry } ∷ [])) }
    {
        self.all = match self.all.take() {
            Some(all) => with(alloc, all, creates, name).ok(),
            None => None,
        };
    }
}

/// The requests `all`, followed by one more request: to create an output if `creates` is true, otherwise to open an input.
fn with(
    alloc: Global,
    mut all: Vec<Asked>,
    creates: bool,
    name: Option<&str>,
) -> Result<Vec<Asked>, AllocError>
    ensures { IfOk result (λ new. map access_of new.items
        ≡ map access_of all.items ++ record { creates = creates; name = option_map (λ n. n.now) name.entry } ∷ []) }
{
    let name = owned(alloc, name)?;
    all.push(Asked { creates, name })?;
    Ok(all)
}

/// A copy of a name, or None if there is no name.
pub(crate) fn owned(alloc: Global, name: Option<&str>) -> Result<Option<String>, AllocError>
    ensures { IfOk result (λ own. option_map string_bytes own ≡ option_map (λ n. n.now) name.entry) }
{
    match name {
        None => Ok(None),
        Some(name) => Ok(Some(String::from_str(alloc, name)?)),
    }
}
