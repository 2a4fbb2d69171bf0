//! Names of the files in a request.
ghost use Rattle.std.specs.Prelude.{◌≡◌, option_map, string_bytes};

/// The name of a file, borrowed. None if no name is given.
pub fn name_of(name: &Option<String>) -> Option<&str>
    ensures { option_map (λ n. n.now) result ≡ option_map string_bytes name.now }
{
    Some(name.as_ref()?.as_str())
}
