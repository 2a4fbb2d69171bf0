//! Lines of text, stored one after the other in one vector.
ghost use Rattle.std.specs.Prelude.{◌≡◌, ℕ, ◌++◌, ◌∷◌, [], List, IsTrue, length, OnOk, OnErr, take};
ghost use Rattle.rules.specs.Dress.{lines_text};
ghost use Rattle.sheet_text.specs.LinesIn.{is_line};

use std::alloc::{AllocError, Global};
use std::marker::Model;

/// Lines, each with its line end, stored one after the other in one vector. A contract sees the list of the lines, without their line ends.
#[derive(Drop)]
pub struct Lines {
    text: Vec<u8>,
}

impl Model for Lines {
    ghost use Rattle.std.specs.Prelude.{◌≡◌, ℕ, List};
    ghost use Rattle.rules.specs.Dress.{lines_text};
    ghost use Rattle.sheet_text.specs.LinesIn.{lines_in};

    ghost Value = { List (List ℕ) };

    ghost view = { λ l. lines_in l.text.items };

    ghost invariant = { λ l. lines_text (lines_in l.text.items) ≡ l.text.items };
}

impl Lines {
    /// Makes an empty list of lines, without allocating memory.
    pub fn new(alloc: Global) -> Lines
        ensures { result ≡ [] }
    {
        Lines {
            text: Vec::new(alloc),
        }
    }

    /// Adds a line at the end of the list. The line must not contain a line feed. If memory is refused, nothing is added.
    pub fn push(&mut self, line: &[u8]) -> Result<(), AllocError>
        requires { IsTrue (is_line line.now) }
        ensures pushed { OnOk result (self.new ≡ self.old ++ line.now ∷ []) }
        ensures unchanged { OnErr result (self.new ≡ self.old) }
    {
        let len = self.text.len();
        match append_line(&mut self.text, line) {
            Ok(()) => Ok(()),
            Err(error) => {
                self.text.truncate(len);
                Err(error)
            }
        }
    }

    /// The text of all lines, with their line ends.
    pub fn text(&self) -> &[u8]
        ensures { result.now ≡ lines_text self.now }
    {
        self.text.as_slice()
    }
}

/// Appends a line and its line end. If memory is refused, some of these bytes may have been appended.
fn append_line(text: &mut Vec<u8>, line: &[u8]) -> Result<(), AllocError>
    ensures appended { OnOk result (text.new.items ≡ text.old.items ++ (line.now ++ 10 ∷ [])) }
    ensures begins { take (length text.old.items) text.new.items ≡ text.old.items }
{
    text.extend_from_slice(line)?;
    text.push(b'\n')?;
    Ok(())
}
