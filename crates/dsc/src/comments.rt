//! Reads the values of comments.
ghost use Rattle.std.specs.Prelude.{◌≡◌, ◌++◌, ◌∷◌, [], MatchOption, true, false};
ghost use Rattle.rules.specs.Bytes.{colon};
ghost use Rattle.rules.specs.Units.{fields, is_comment};
ghost use Rattle.dsc.specs.Fields.{fields_in};

use crate::keys::key_of;

/// The value of a comment: the text after its colon. None if a line with this content isn't a comment with the key
/// `key`. `with_colon` is the key followed by a colon.
pub fn comment_value<'t>(content: &'t [u8], key: &[u8], with_colon: &[u8]) -> Option<&'t [u8]>
    requires { with_colon.now ≡ key.now ++ colon ∷ [] }
    ensures { MatchOption result (is_comment key.now content.now ≡ false) (λ value.
        (is_comment key.now content.now ≡ true) × (fields content.now ≡ fields_in value.now)) }
{
    if !is_comment_of(content, key, with_colon) {
        return None;
    }
    let (_, value) = content.split_at(with_colon.len());
    Some(value)
}

/// Whether a line with this content is a comment with this key. The colon must follow the key directly.
fn is_comment_of(content: &[u8], key: &[u8], with_colon: &[u8]) -> bool
    requires { with_colon.now ≡ key.now ++ colon ∷ [] }
    ensures { result ≡ is_comment key.now content.now }
{
    key_of(content) == key && content.starts_with(with_colon)
}
