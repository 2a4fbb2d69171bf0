//! The prepared body of a page. It borrows its bytes from the page if they are one run there, and copies them
//! otherwise.
ghost use Rattle.std.specs.Prelude.{◌≡◌, ◌++◌, IfOk, IfErr, IfSome};
ghost use Rattle.rules.specs.Filters.{ended, prepared};
ghost use Rattle.dsc.specs.Views.{GivesUnlessShort};
ghost use Rattle.dsc.specs.Faults.{reported_block_fault, reported_page_fault, IsPageError};
ghost use Rattle.dsc.specs.Laws.{HasBody};
ghost use Rattle.dsc.specs.declared.errors.DscError.TheVariants.{NoMemory};

use crate::errors::{CutError, DscError};
use crate::filters::{Drops, Kept, end_line, filter, wants_end};
use std::alloc::{AllocError, Global};
use std::marker::Model;

/// The prepared body of a page: the bytes that the free function `prepare` returns. If they are one run of the page,
/// the body borrows them from the page and copies nothing. A body takes 24 bytes, and a copy takes memory of its own.
#[derive(Drop)]
pub struct Body<'d> {
    bytes: Bytes<'d>,
}

/// The bytes of a body: a run of its page, or a copy. The copy is in a box, because most bodies have no copy, and a
/// `Vec` takes one word more than a reference to a run.
#[derive(Drop)]
enum Bytes<'d> {
    Part(&'d [u8]),
    Copy(Box<Vec<u8>>),
}

impl<'d> Model for Body<'d> {
    ghost use Rattle.std.specs.Prelude.{ℕ, List};
    ghost use Rattle.dsc.specs.Bodies.{bytes_in};

    ghost Value = { List ℕ };

    ghost view = { λ b. bytes_in b.bytes };
}

impl<'d> Body<'d> {
    /// Prepares the body of a page. Its bytes are those that the free function `prepare` returns. They aren't copied if
    /// they are one run of the page. This is the case if outermost lines are dropped only at the start and the end of
    /// the page, and the run ends with a line end.
    ///
    /// Refuses the first faulty data block of the page, with `BadCount` or `ShortData`. A page of a document has no
    /// faulty block. Without enough memory the error is `NoMemory`.
    pub fn prepare(alloc: Global, page: &'d [u8]) -> Result<Body<'d>, DscError>
        ensures answer { GivesUnlessShort (λ b. b) reported_page_fault result (prepared page.now) }
        ensures refusals { IfErr result IsPageError }
        ensures memory_alone { HasBody page.now → IfErr result (λ e. e ≡ NoMemory) }
    {
        let body = cut_body(alloc, page)?;
        Ok(body)
    }

    /// The body that consists of this run of its page.
    pub(crate) fn of_run(run: &'d [u8]) -> Body<'d>
        ensures { result ≡ run.now }
    {
        Body {
            bytes: Bytes::Part(run),
        }
    }

    /// The bytes of the body.
    pub fn as_slice(&self) -> &[u8]
        ensures { result.now ≡ self.now }
    {
        match &self.bytes {
            Bytes::Part(part) => part,
            Bytes::Copy(copy) => copy.as_slice(),
        }
    }
}

/// Prepares the body of a page, as `Body::prepare` does. If the page has a faulty data block, the error contains the
/// first one.
fn cut_body<'d>(alloc: Global, page: &'d [u8]) -> Result<Body<'d>, CutError>
    ensures { GivesUnlessShort (λ b. b) reported_block_fault result (prepared page.now) }
{
    let kept = filter(Vec::new(alloc), Drops::PageSetup, page)?;
    let body = body_of(alloc, kept)?;
    Ok(body)
}

/// Makes a body from the bytes that the filter kept. Adds a line end if these bytes don't end with one.
fn body_of<'d>(alloc: Global, kept: Kept<'d>) -> Result<Body<'d>, AllocError>
    ensures { IfOk result (λ b. b ≡ ended ((kept.entry.copied.items ++ kept.entry.held.now) ++ kept.entry.run.now)) }
{
    if let Some(part) = one_run(&kept) {
        return Ok(Body {
            bytes: Bytes::Part(part),
        });
    }
    let mut copy = kept.into_copy()?;
    end_line(&mut copy)?;
    let copy = Box::new(alloc, copy)?;
    Ok(Body {
        bytes: Bytes::Copy(copy),
    })
}

/// The bytes that the filter kept, if they are one run of the page and need no further line end.
fn one_run<'d>(kept: &Kept<'d>) -> Option<&'d [u8]>
    ensures { IfSome result (λ part.
        part.now ≡ ended ((kept.now.copied.items ++ kept.now.held.now) ++ kept.now.run.now)) }
{
    if !kept.copied.is_empty() {
        return None;
    }
    let run = if kept.held.is_empty() {
        kept.run
    } else if kept.run.is_empty() {
        kept.held
    } else {
        return None;
    };
    if wants_end(run) {
        return None;
    }
    Some(run)
}
