//! Cuts a text into units, which are lines and blocks of data.
ghost use Rattle.std.specs.Prelude.{◌≡◌, ◌<◌, ◌≤◌, length, codes, IfOk, MatchOption, true, false};
ghost use Rattle.rules.specs.Units.{first_unit, begins_block, fields, is_comment};
ghost use Rattle.dsc.specs.Fields.{fields_in, third_is, data_in};
ghost use Rattle.dsc.specs.Views.{unit_of, block_fault, ReadsAs};

use crate::fields::{count_in, next_field};
use crate::keys::comment_letter;
use crate::lines::{content_end, line_end_after, lines_end};

/// A unit: a line with its line end, or a data block. A data block consists of the line that begins it and the data
/// after that line. `content` is the line, or the first line of the block, without its line end. A `Walk` passes
/// several lines that don't begin with two percent signs as one unit, with an empty `content`.
#[derive(Clone, Copy)]
pub(crate) struct LineOrBlock<'d> {
    pub content: &'d [u8],
    pub bytes: &'d [u8],
    pub is_block: bool,
}

/// The fault of a data block: its count is missing or isn't a number, or the block counts more bytes or lines than
/// follow its first line.
#[derive(Debug, Clone, Copy)]
pub enum UnitError {
    BadCount,
    ShortData,
}

/// The text after the colon of a line that begins a data block, and whether the data may be counted in lines. Data
/// after `%%BeginBinary:` is counted in bytes only. None if the line begins no data block.
fn data_heading(content: &[u8]) -> Option<(&[u8], bool)>
    ensures { MatchOption result (begins_block content.now ≡ false) (λ h.
        (begins_block content.now ≡ true) × (fields content.now ≡ fields_in h.0.now)
        × (is_comment (codes "%%BeginData") content.now ≡ h.1)) }
{
    if comment_letter(content) != Some(b'B') {
        return None;
    }
    if let Some(after) = content.strip_prefix(b"%%BeginData:") {
        return Some((after, true));
    }
    match content.strip_prefix(b"%%BeginBinary:") {
        Some(after) => Some((after, false)),
        None => None,
    }
}

/// Whether the third field after `%%BeginData:` is `Lines`. `after` is the text after the first field.
fn third_is_lines(after: &[u8]) -> bool
    ensures { result ≡ third_is (codes "Lines") (fields_in after.now) }
{
    match next_field(after) {
        None => false,
        Some((_, rest)) => match next_field(rest) {
            None => false,
            Some((third, _)) => third == b"Lines".as_slice(),
        },
    }
}

/// The number of bytes of the data in a block. `after` is the text after the colon of the block's first line, and
/// `rest` is the text after that line. `may_count_lines` says whether the data may be counted in lines. Fails with the
/// fault of the block, if it has one.
fn data_len(after: &[u8], may_count_lines: bool, rest: &[u8]) -> Result<usize, UnitError>
    ensures length { ReadsAs (λ n. n) block_fault result (data_in may_count_lines rest.now (fields_in after.now)) }
    ensures within { IfOk result (λ n. n ≤ length rest.now) }
{
    let (count, after) = match next_field(after) {
        None => return Err(UnitError::BadCount),
        Some(found) => found,
    };
    let count = match count_in(count) {
        None => return Err(UnitError::BadCount),
        Some(count) => count,
    };
    // A line has at least one byte, so a count of lines that is above the number of bytes left is too large as well.
    if rest.len() < count {
        return Err(UnitError::ShortData);
    }
    if may_count_lines && third_is_lines(after) {
        match lines_end(count, rest) {
            None => Err(UnitError::ShortData),
            Some(len) => Ok(len),
        }
    } else {
        Ok(count)
    }
}

/// The first unit of a non-empty text. If this unit is a faulty data block, it is refused.
pub(crate) fn first_unit(text: &[u8]) -> Result<LineOrBlock<'_>, UnitError>
    requires { 0 < length text.now }
    ensures unit { ReadsAs unit_of block_fault result (first_unit text.now) }
    ensures within { IfOk result (λ u. (0 < length u.bytes.now) × (length u.bytes.now ≤ length text.now)) }
{
    let content_len = content_end(text);
    let line_len = line_end_after(text, content_len);
    let (content, _) = text.split_at(content_len);
    match data_heading(content) {
        None => {
            let (bytes, _) = text.split_at(line_len);
            Ok(LineOrBlock {
                content,
                bytes,
                is_block: false,
            })
        }
        Some((after, may_count_lines)) => {
            let (_, rest) = text.split_at(line_len);
            let len = data_len(after, may_count_lines, rest)?;
            let (bytes, _) = text.split_at(line_len + len);
            Ok(LineOrBlock {
                content,
                bytes,
                is_block: true,
            })
        }
    }
}
