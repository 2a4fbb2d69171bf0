//! Names from documents, as messages show them.
ghost use Rattle.std.specs.Prelude.{◌≡◌, ◌≤◌, ◌++◌, length, map};
ghost use Rattle.impose_messages.specs.Said.{shown_byte as byte_shown, shown_name};

use arrayvec::ArrayVec;
use std::marker::Model;
use suggestions::MOST_SHOWN;

/// A name from a document, such as a paper's, as messages show it: its first hundred bytes, and two dots if the name is longer. A question mark takes
/// the place of each byte that isn't printable ASCII. The text is stored in place, without allocated memory.
#[derive(Drop)]
pub struct ShownName {
    text: ArrayVec<u8, 102>,
}

impl Model for ShownName {
    ghost use Rattle.std.specs.Prelude.{ℕ, List};

    ghost Value = { List ℕ };

    ghost view = { λ n. n.text.items };
}

impl ShownName {
    /// The name, as messages show it.
    pub fn of(name: &[u8]) -> ShownName
        ensures { result ≡ shown_name name.now }
    {
        let (front, _) = name.split_at(name.len().min(MOST_SHOWN));
        let mut text = shown_front(front);
        if name.len() > MOST_SHOWN {
            text.push(b'.');
            text.push(b'.');
        }
        ShownName { text }
    }

    pub(crate) fn as_slice(&self) -> &[u8]
        ensures { result.now ≡ self.now }
    {
        self.text.as_slice()
    }
}

/// The first bytes `front` of a name, each as `shown_byte` gives it.
fn shown_front(front: &[u8]) -> ArrayVec<u8, 102>
    requires few { length front.now ≤ 100 }
    ensures { result.items ≡ map byte_shown front.now }
{
    let mut shown = ArrayVec::new();
    for b in front {
        shown.push(shown_byte(*b));
    }
    shown
}

/// A byte of a name as messages show it: a question mark in place of a byte that isn't printable ASCII.
fn shown_byte(b: u8) -> u8
    ensures { result ≡ byte_shown b }
{
    if 32 <= b && b <= 126 { b } else { b'?' }
}
