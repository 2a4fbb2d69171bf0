//! Files in memory.
ghost use Rattle.std.specs.Prelude.{◌≡◌, option_map};
ghost use Rattle.test_tools.specs.Files.{bytes_of};

/// A file in memory that can be read.
#[derive(Clone, Copy)]
pub struct GivenFile<'a> {
    pub name: &'a str,
    pub bytes: &'a [u8],
    /// Whether the file is a regular one, not a device or a pipe.
    pub is_regular: bool,
}

/// The bytes of the first file of this name. `None` if there is no such file.
pub(crate) fn bytes_named<'a>(files: &[GivenFile<'a>], name: &str) -> Option<&'a [u8]>
    ensures { option_map (λ bytes. bytes.now) result ≡ bytes_of files.now name.now }
{
    match files {
        [] => None,
        [file, rest @ ..] => {
            if file.name == name {
                Some(file.bytes)
            } else {
                bytes_named(rest, name)
            }
        }
    }
}
