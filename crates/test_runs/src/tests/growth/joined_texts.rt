//! Tests of texts of several sheets that share memory, and of sheets that come before their turn. Each growth of each call is refused in turn.
use crate::tests::callers::stories::{Called, first_word, number, show, tell};
use crate::tests::checks::{assert_that, done};
use sheet_text::{Pieces, Rope, Texts};
use sheet_writer::ReorderBuffer;
use std::alloc::{AllocError, Global};
use std::mem;
use std::process::Abort;
use test_tools::{Refused, has_refused, refuse, refuse_each};

/// The objects of a story: texts of finished sheets, and sheets that have come. Each text is made in the same memory as the one before, and then
/// added to the finished texts. The slices `long` and `longer` are borrowed, not copied.
#[derive(Drop)]
struct InTexts<'r> {
    long: &'r [u8],
    longer: &'r [u8],
    text: Rope<'r>,
    texts: Texts<'r>,
    early: ReorderBuffer<'r>,
}

/// The largest number of pieces of a text that an answer shows.
const MOST_PIECES: u32 = 20;

impl<'r> InTexts<'r> {
    /// Makes the text anew from parts with a bar between them. The names `long`, `longer` and `short` stand for slices that are appended as borrowed;
    /// other parts are copied.
    fn write(&mut self, parts: &str) -> Result<(), AllocError> {
        let (long, longer) = (self.long, self.longer);
        self.text.clear();
        for part in parts.split('|') {
            let appended = match part {
                "long" => self.text.append_borrowed(long),
                "longer" => self.text.append_borrowed(longer),
                "short" => self.text.append_borrowed(b"cd"),
                own => self.text.append(own.as_bytes()),
            };
            appended?;
        }
        Ok(())
    }

    /// The number of finished texts, and the capacity and the length of the next one, in bytes. The length is `None` if it is above `usize::MAX`.
    fn sizes(&self) -> (usize, usize, Option<usize>) {
        let text = &self.text;
        (self.texts.len(), text.capacity(), text.pieces().len())
    }

    /// Makes a text of these parts, adds it as a sheet, and appends the number of finished sheets. The text must be empty afterwards, and keep its
    /// memory. If memory is refused, that number and the text must be unchanged.
    fn finish(&mut self, sheet: u32, parts: &str, answer: &mut Vec<u8>) -> Result<(), AllocError> {
        self.write(parts)?;
        let before = self.sizes();
        let is_added = self.texts.push(sheet, &mut self.text).is_ok();
        let after = self.sizes();
        if is_added && (after.1, after.2) == (before.1, Some(0)) {
            show(after.0, answer)
        } else if !is_added && after == before {
            answer.extend_from_slice(b"NoMemory")
        } else {
            show("something else has changed", answer)
        }
    }

    /// Adds a sheet in the memory of sheets that were cleared. Appends whether the sheet was added, and whether the addition asked for memory.
    fn add_anew(
        &mut self,
        alloc: Global,
        sheet: u32,
        parts: &str,
        answer: &mut Vec<u8>,
    ) -> Result<(), AllocError> {
        self.write(parts)?;
        self.texts.clear();
        refuse(alloc, 1);
        let is_added = self.texts.push(sheet, &mut self.text).is_ok();
        show((is_added, has_refused(alloc)), answer)
    }

    /// Puts the finished sheets into the buffer as one group, and returns their number.
    fn come(&mut self, alloc: Global) -> usize {
        let finished = mem::replace(&mut self.texts, Texts::new(alloc));
        let count = finished.len();
        self.early.put(finished);
        count
    }

    /// Takes a group of sheets from the buffer, if this sheet is the group's last one. Returns the number of sheets taken, which is 0 for another
    /// sheet.
    fn take(&mut self, sheet: u32) -> usize {
        match self.early.take_written(sheet) {
            Some(written) => written.len(),
            None => 0,
        }
    }

    /// Joins up to `most` finished sheets, beginning with this sheet. The sheet's number is also its index. Appends the number of joined sheets, and
    /// their pieces, or `no such text` if `most` is 0 or the sheet isn't at its index.
    fn join(&self, sheet: u32, most: u32, answer: &mut Vec<u8>) -> Result<(), AllocError> {
        if most == 0 {
            return show("no such text", answer);
        }
        let Some((count, text)) = self.texts.joined(sheet, sheet as usize, most) else {
            return show("no such text", answer);
        };
        show(count, answer)?;
        self.show_pieces(text, answer)
    }

    /// Appends the text of a sheet that is in the buffer, or that there is no such sheet.
    fn text_of(&self, sheet: u32, answer: &mut Vec<u8>) -> Result<(), AllocError> {
        match self.early.joined(sheet, 1) {
            Some((_, text)) => self.show_pieces(text, answer),
            None => show("no such sheet", answer),
        }
    }

    fn show_pieces(&self, text: Pieces<'_, '_>, answer: &mut Vec<u8>) -> Result<(), AllocError> {
        let mut pieces = text;
        for _ in 0..MOST_PIECES {
            let Some(piece) = pieces.take_next() else {
                return Ok(());
            };
            answer.push(b' ')?;
            answer.extend_from_slice(self.shown(piece))?;
        }
        Ok(())
    }

    /// A piece as answers show it: the two long slices by their names, other pieces by their bytes.
    fn shown<'p>(&self, piece: &'p [u8]) -> &'p [u8] {
        if piece == self.long {
            b"long".as_slice()
        } else if piece == self.longer {
            b"longer".as_slice()
        } else {
            piece
        }
    }

    /// Appends the numbers of those of the first eight sheets that are in the buffer.
    fn found(&self, answer: &mut Vec<u8>) -> Result<(), AllocError> {
        for sheet in 0..8u8 {
            if self.early.joined(u32::from(sheet), 1).is_some() {
                answer.extend_from_slice(&[b'0' + sheet, b';'])?;
            }
        }
        Ok(())
    }
}

impl<'r, R> Called<R> for InTexts<'r> {
    fn call(
        &mut self,
        _rt: &R,
        alloc: Global,
        words: &str,
        answer: &mut Vec<u8>,
    ) -> Result<(), AllocError> {
        let (name, rest) = first_word(words);
        let (word, parts) = first_word(rest);
        let first = number(Some(word));
        match name {
            "joined" => self.join(first, number(Some(parts)), answer),
            "clear" => {
                self.texts.clear();
                show(self.texts.len(), answer)
            }
            "finish" => self.finish(first, parts, answer),
            "anew" => self.add_anew(alloc, first, parts, answer),
            "come" => show(self.come(alloc), answer),
            "found" => self.found(answer),
            "text" => self.text_of(first, answer),
            "take" => show(self.take(first), answer),
            _ => show((self.early.places.len(), self.early.groups.len()), answer),
        }
    }
}

/// A story that is told with a buffer of `places` places for sheets that come before their turn. Where a line of the story has the word `long` or
/// `longer`, the slice of this name is meant.
#[derive(Drop)]
struct Story<'s> {
    places: u32,
    long: &'s [u8],
    longer: &'s [u8],
    story: &'s str,
}

impl<'s> Story<'s> {
    /// The objects at the start: no sheet is finished, and the text has some room.
    fn called<R: Abort>(&self, rt: &R, alloc: Global) -> InTexts<'s> {
        let early = done(rt, ReorderBuffer::new(alloc, self.places));
        let mut text = Rope::new(alloc);
        done(rt, text.reserve(1_000));
        InTexts {
            long: self.long,
            longer: self.longer,
            text,
            texts: Texts::new(alloc),
            early,
        }
    }
}

impl<'s, R: Abort> Refused<R> for Story<'s> {
    fn refuse(&self, rt: &R, alloc: Global, number: u32) -> bool {
        let mut called = self.called(rt, alloc);
        tell(rt, alloc, &mut called, number, self.story)
    }
}

/// Long and short texts come out whole, and short slices are copied.
const TEXTS: &str = "\
    finish 0 ab|cd|ef = 1\n\
    finish 1 |long|g = 2\n\
    finish 2 h = 3\n\
    finish 3  = 4\n\
    finish 4 ij|longer| = 5\n\
    finish 5 |long| = 6\n\
    finish 6 k|long|l = 7\n\
    finish 7 m = 8\n\
    finish 8 ab|short|long|long|ef = 9\n\
    joined 0 1 = 1 abcdef\n\
    joined 1 1 = 1 long g\n\
    joined 2 1 = 1 h\n\
    joined 3 1 = 1\n\
    joined 4 1 = 1 ij longer\n\
    joined 5 1 = 1 long\n\
    joined 6 1 = 1 k long l\n\
    joined 7 1 = 1 m\n\
    joined 8 1 = 1 abcd long long ef\n\
";

/// Neighbouring sheets without borrowed slices are joined into one piece.
const NEIGHBOURS: &str = "\
    finish 0 ab = 1\n\
    finish 1 c = 2\n\
    finish 2 |long| = 3\n\
    finish 3 d = 4\n\
    finish 4 ef = 5\n\
    finish 5 g = 6\n\
    joined 0 9 = 2 abc\n\
    joined 1 9 = 1 c\n\
    joined 2 9 = 1 long\n\
    joined 3 9 = 3 defg\n\
    joined 3 2 = 2 def\n\
    joined 5 9 = 1 g\n\
    clear = 0\n\
    finish 0 d = 1\n\
    joined 0 9 = 1 d\n\
    anew 0 text = (true, false)\n\
    joined 0 9 = 1 text\n\
";

/// A sheet that comes is put in its place in the buffer. A later sheet with the same place is dropped, and a call that takes it leaves the first
/// sheet in the buffer.
const ONE_PLACE: &str = "\
    places = (2, 2)\n\
    finish 1 a = 1\n\
    come = 1\n\
    finish 3 b = 1\n\
    come = 1\n\
    found = 1;\n\
    take 3 = 0\n\
    take 0 = 0\n\
    text 1 =  a\n\
    take 1 = 1\n\
    take 1 = 0\n\
    found = \n\
";

/// The sheets of a group lie at the place of the group's last sheet, and are all dropped if that place is taken. A sheet whose own place belongs to
/// another sheet counts as one that never came.
const TOGETHER: &str = "\
    finish 1 = 1\n\
    finish 3 = 2\n\
    come = 2\n\
    finish 4 = 1\n\
    finish 7 = 2\n\
    come = 2\n\
    found = 1;3;\n\
    finish 5 = 1\n\
    finish 6 = 2\n\
    come = 2\n\
    found = 3;5;6;\n\
    take 1 = 0\n\
    take 5 = 0\n\
    take 3 = 2\n\
    take 6 = 2\n\
";

#[test]
fn texts_and_sheets_come_out_as_they_were(rt: HostRuntime) {
    let long = [b'x'; 4_096];
    let longer = [b'y'; 5_000];
    for (places, story) in [(1, TEXTS), (1, NEIGHBOURS), (2, ONE_PLACE), (4, TOGETHER)] {
        let story = Story {
            places,
            long: long.as_slice(),
            longer: longer.as_slice(),
            story,
        };
        assert_that(&rt, refuse_each(&rt, rt.alloc(), &story));
    }
}
