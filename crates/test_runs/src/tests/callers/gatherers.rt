//! Tests of a gatherer in one thread. It puts pages on the shelf and into the table, puts sheets into the queue, delivers pages and imposes sheets.
//! Each growth of memory in each call is refused in turn.
ghost use Rattle.handover.specs.Shelves.{IsOn};

use super::gatherer::{Gatherer, gatherer_of, outcome_of};
use super::stories::{Called, call_of, say, show, tell};
use crate::tests::checks::{assert_that, done};
use crate::tests::jobs::{Task, with_job};
use crate::tests::table_and_shelf;
use dsc::prepare;
use handover::{Overflow, Prepared, PutError, Ready, Receipt, Shelf};
use imposer::{DeliverError, Delivered, Job};
use run_steps::Answers;
use std::alloc::{AllocError, Global};
use std::process::Abort;
use std::sync::Wait;
use test_tools::{Refused, document_of, has_refused, refuse_each};

/// Appends the answer to a delivery that succeeded.
fn show_delivered(delivered: &Delivered<'_>, answer: &mut Vec<u8>) -> Result<(), AllocError> {
    let published = delivered.published;
    let replies = delivered.replies.as_slice();
    let closings = delivered.closings.as_slice();
    let handed_back = delivered.handed_back.as_slice();
    say(
        format_args!("{published:?} {replies:?} {closings:?} {handed_back:?}"),
        answer,
    )
}

/// Appends the answer to a delivery. For a page without a receipt, appends `NoMemory` and the page's number or, if the shelf was full, the page's
/// index.
fn show_delivery(
    delivery: Result<Delivered<'_>, DeliverError<'_>>,
    answer: &mut Vec<u8>,
) -> Result<(), AllocError> {
    match delivery {
        Ok(delivered) => show_delivered(&delivered, answer),
        Err(DeliverError::NoMemory(prepared)) => show_unshelved(&prepared, answer),
        Err(DeliverError::ShelfFull(overflow)) => show(Overflow::index(&overflow), answer),
    }
}

/// Appends `NoMemory` and the number of a page that is returned for lack of memory.
fn show_unshelved(prepared: &Prepared<'_>, answer: &mut Vec<u8>) -> Result<(), AllocError> {
    say(format_args!("NoMemory {}", prepared.page()), answer)
}

/// Delivers a page and appends the outcome. If `is_again` is true, the page is delivered once before, and the memory of the answers to that delivery
/// is used again.
fn deliver<R: Wait>(
    rt: &R,
    alloc: Global,
    gatherer: &mut Gatherer<'_, '_, '_, '_>,
    page: u32,
    is_again: bool,
    answer: &mut Vec<u8>,
) -> Result<(), AllocError> {
    let prepared = gatherer.prepare(alloc, page).ok_or(AllocError)?;
    if !is_again {
        return show_delivery(gatherer.deliver(rt, alloc, prepared, None), answer);
    }
    let first = gatherer.deliver_page(rt, alloc, page).ok_or(AllocError)?;
    let answers = Some(Answers::of(first));
    show_delivery(gatherer.deliver(rt, alloc, prepared, answers), answer)
}

/// The number, the bytes and the body that a page must have.
#[derive(Clone, Copy)]
struct Known<'d> {
    page: u32,
    raw: &'d [u8],
    body: &'d [u8],
}

/// Whether a page has this number, these bytes and this body.
fn is_known(found: &Prepared<'_>, known: Known<'_>) -> bool {
    found.page() == known.page && found.raw() == known.raw && found.body() == known.body
}

/// The index of a page on the shelf. `None` unless the shelf reads the known page both with the page's receipt and with the receipt that it finds at
/// this index.
fn index_on<'d>(shelf: &Shelf<'d>, receipt: &Receipt<'d>, known: Known<'_>) -> Option<u32>
    requires { IsOn shelf.now receipt.now }
{
    let index = receipt.index();
    let found = shelf.find(index)?;
    shelf.agree(receipt, &found.receipt);
    let is_found = found.receipt.index() == index
        && is_known(found.page, known)
        && is_known(shelf.read(&found.receipt), known)
        && is_known(shelf.read(receipt), known);
    if is_found { Some(index) } else { None }
}

/// Puts a page of the document on the shelf, and appends its index, or the reason why the page isn't put there.
fn put<'d, R: Wait>(
    rt: &R,
    alloc: Global,
    shelf: &Shelf<'d>,
    job: &Job<'_, 'd>,
    page: u32,
    answer: &mut Vec<u8>,
) -> Result<(), AllocError> {
    let document = job.document();
    if page >= document.pages() {
        return show("no such page", answer);
    }
    let raw = document.page(page);
    let body = prepare(alloc, raw).map_err(|_| AllocError)?;
    let known = Known {
        page,
        raw,
        body: body.as_slice(),
    };
    let prepared = Prepared::of_page(alloc, document, page)?;
    put_known(rt, shelf, prepared, known, answer)
}

/// Puts a known page on the shelf, and appends the answer of `index_on` for it, or the reason why the page isn't put there.
fn put_known<'d, R: Wait>(
    rt: &R,
    shelf: &Shelf<'d>,
    prepared: Prepared<'d>,
    known: Known<'_>,
    answer: &mut Vec<u8>,
) -> Result<(), AllocError> {
    match shelf.put(rt, prepared) {
        Ok(receipt) => show(index_on(shelf, &receipt, known), answer),
        Err(PutError::NoMemory(prepared)) => show_unshelved(&prepared, answer),
        Err(PutError::ShelfFull(overflow)) => show(overflow.index(), answer),
    }
}

/// Puts a page on the shelf at a moment when the shelf also asks for memory for later pages. The page is put even if that growth is refused.
fn put_ahead<'d, R: Wait>(
    rt: &R,
    alloc: Global,
    shelf: &Shelf<'d>,
    job: &Job<'_, 'd>,
    page: u32,
    answer: &mut Vec<u8>,
) -> Result<(), AllocError> {
    let is_put = put(rt, alloc, shelf, job, page, answer);
    if is_put.is_ok() {
        has_refused(alloc);
    }
    is_put
}

impl<'s, 'j, 't, 'd, R: Wait> Called<R> for Gatherer<'s, 'j, 't, 'd> {
    fn call(
        &mut self,
        rt: &R,
        alloc: Global,
        words: &str,
        answer: &mut Vec<u8>,
    ) -> Result<(), AllocError> {
        let (name, first, second) = call_of(words);
        match name {
            "deliver" => deliver(rt, alloc, self, first, false, answer),
            "again" => deliver(rt, alloc, self, first, true, answer),
            "publish" => show(self.publish(first, second), answer),
            "mark" => show(self.mark(first, second.min(65_535) as u16), answer),
            "look" => show(self.look(first), answer),
            "page" => show(self.page_at(first), answer),
            "impose" => show(outcome_of(alloc, self, first)?, answer),
            "take" => show(self.take(rt), answer),
            "hand_on" => show(self.hand_on(rt, first), answer),
            "shown" => show(self.shelf.at(first).map(|page| page.page()), answer),
            "ahead" => put_ahead(rt, alloc, self.shelf, self.job, first, answer),
            _ => put(rt, alloc, self.shelf, self.job, first, answer),
        }
    }
}

/// A story of a gatherer with room for `room` sheets in the queue. In each call of the story, growth `number`, counted from 1, is refused.
#[derive(Drop)]
struct Gathering<'s> {
    room: u32,
    number: u32,
    story: &'s str,
}

impl<'s, R: Wait + Abort> Task<R, bool> for Gathering<'s> {
    fn go(&self, rt: &R, alloc: Global, job: &Job<'_, '_>) -> bool {
        let (table, seat, shelf) = table_and_shelf(rt, alloc, job);
        let (ready, pass) = done(rt, Ready::new(alloc, self.room.max(1)));
        let mut gatherer = gatherer_of(job, &table, &shelf, &ready, seat, pass);
        tell(rt, alloc, &mut gatherer, self.number, self.story)
    }
}

/// A story of a gatherer. Its first line has the specification, the number of pages, and the number of sheets for which the queue has room.
#[derive(Drop)]
struct Story<'s> {
    story: &'s str,
}

impl<'s, R: Wait + Abort> Refused<R> for Story<'s> {
    fn refuse(&self, rt: &R, alloc: Global, number: u32) -> bool {
        let (setting, story) = self.story.split_once('\n').unwrap_or((self.story, ""));
        let (items, pages, room) = call_of(setting);
        let text = done(rt, document_of(alloc, pages));
        let task = Gathering {
            room,
            number,
            story,
        };
        with_job(rt, alloc, &text, items, &task)
    }
}

/// A page that is twice on one sheet.
const TWICE: &str = "\
    0+0 1 1\n\
    look 0 = Some(3)\n\
    impose 0 = NotComplete\n\
    deliver 0 = Stored [Fresh, Completing] [] []\n\
    take = Some(0)\n\
    look 0 = Some(0)\n\
    impose 0 = Imposed\n\
    deliver 0 = Held(0) [Repeated, Repeated] [] []\n\
    take = None\n\
    page 0 = Some(0)\n\
";

/// A page that is twice on one sheet, delivered in the memory of another delivery's answers.
const AGAIN: &str = "\
    0+0 1 1\n\
    again 0 = Held(0) [Repeated, Repeated] [] []\n\
    take = Some(0)\n\
    take = None\n\
";

/// A page that completes two sheets, with room for one in the queue.
const HANDED_BACK: &str = "\
    0,0 1 1\n\
    deliver 0 = Stored [Completing, Completing] [] [1]\n\
    take = Some(0)\n\
    take = None\n\
    impose 1 = Imposed\n\
";

/// A sheet without pages, which needs no shelf.
const BLANK: &str = "\
    2:1 1 1\n\
    look 0 = Some(0)\n\
    impose 0 = Imposed\n\
";

/// A shelf with another page at the index that the table has for the sheet's own page.
const ANOTHER_PAGE: &str = "\
    0 2 1\n\
    shown 0 = None\n\
    put 1 = Some(0)\n\
    put 0 = Some(1)\n\
    shown 0 = Some(1)\n\
    shown 1 = Some(0)\n\
    shown 2 = None\n\
    publish 0 0 = Some(Stored)\n\
    mark 0 0 = Some(Completing)\n\
    impose 0 = NotShown\n\
";

/// A shelf with the sheet's own page at the index that the table has for this page.
const OWN_PAGE: &str = "\
    0 2 1\n\
    put 0 = Some(0)\n\
    publish 0 0 = Some(Stored)\n\
    mark 0 0 = Some(Completing)\n\
    impose 0 = Imposed\n\
    impose 1 = NotComplete\n\
    shown 4294967295 = None\n\
";

/// With its 29th page, a shelf asks for more room. If the room is refused, the shelf asks again with the page that needs it. If the room is refused
/// once more, that page is returned, and the shelf still shows the earlier pages.
const FILLED: &str = "\
    0 33 1\n\
    put 0 = Some(0)\n\
    put 1 = Some(1)\n\
    put 2 = Some(2)\n\
    put 3 = Some(3)\n\
    put 4 = Some(4)\n\
    put 5 = Some(5)\n\
    put 6 = Some(6)\n\
    put 7 = Some(7)\n\
    put 8 = Some(8)\n\
    put 9 = Some(9)\n\
    put 10 = Some(10)\n\
    put 11 = Some(11)\n\
    put 12 = Some(12)\n\
    put 13 = Some(13)\n\
    put 14 = Some(14)\n\
    put 15 = Some(15)\n\
    put 16 = Some(16)\n\
    put 17 = Some(17)\n\
    put 18 = Some(18)\n\
    put 19 = Some(19)\n\
    put 20 = Some(20)\n\
    put 21 = Some(21)\n\
    put 22 = Some(22)\n\
    put 23 = Some(23)\n\
    put 24 = Some(24)\n\
    put 25 = Some(25)\n\
    put 26 = Some(26)\n\
    put 27 = Some(27)\n\
    ahead 28 = Some(28)\n\
    put 29 = Some(29)\n\
    put 30 = Some(30)\n\
    put 31 = Some(31)\n\
    put 32 = Some(32)\n\
    shown 0 = Some(0)\n\
    shown 27 = Some(27)\n\
    shown 28 = Some(28)\n\
    shown 31 = Some(31)\n\
    shown 32 = Some(32)\n\
";

/// A queue with room for two sheets. A page is delivered at the end, so that one call of the story asks for memory.
const IN_ORDER: &str = "\
    0 1 2\n\
    hand_on 7 = Ok(())\n\
    hand_on 8 = Ok(())\n\
    hand_on 9 = Err(Full(9))\n\
    take = Some(7)\n\
    hand_on 9 = Ok(())\n\
    take = Some(8)\n\
    take = Some(9)\n\
    take = None\n\
    deliver 0 = Stored [Completing] [] []\n\
";

/// The same page in each of 64 slots of a sheet.
const IN_64_SLOTS: &str = "\
    0+0+0+0+0+0+0+0+0+0+0+0+0+0+0+0+0+0+0+0+0+0+0+0+0+0+0+0+0+0+0+0+0+0+0+0+0+0+0+0+0+0+0+0+0+0+0+0+0+0+\
    0+0+0+0+0+0+0+0+0+0+0+0+0+0 1 1\n\
    look 0 = Some(18446744073709551615)\n\
    deliver 0 = Stored [Fresh, Fresh, Fresh, Fresh, Fresh, Fresh, Fresh, Fresh, Fresh, Fresh, Fresh, Fresh, Fresh, \
    Fresh, Fresh, Fresh, Fresh, Fresh, Fresh, Fresh, Fresh, Fresh, Fresh, Fresh, Fresh, Fresh, Fresh, Fresh, \
    Fresh, Fresh, Fresh, Fresh, Fresh, Fresh, Fresh, Fresh, Fresh, Fresh, Fresh, Fresh, Fresh, Fresh, Fresh, \
    Fresh, Fresh, Fresh, Fresh, Fresh, Fresh, Fresh, Fresh, Fresh, Fresh, Fresh, Fresh, Fresh, Fresh, Fresh, \
    Fresh, Fresh, Fresh, Fresh, Fresh, Completing] [] []\n\
";

/// The same page in each of 65 slots of a sheet.
const IN_65_SLOTS: &str = "\
    0+0+0+0+0+0+0+0+0+0+0+0+0+0+0+0+0+0+0+0+0+0+0+0+0+0+0+0+0+0+0+0+0+0+0+0+0+0+0+0+0+0+0+0+0+0+0+0+0+0+\
    0+0+0+0+0+0+0+0+0+0+0+0+0+0+0 1 1\n\
    look 0 = Some(3)\n\
    deliver 0 = Stored [Fresh, Fresh, Fresh, Fresh, Fresh, Fresh, Fresh, Fresh, Fresh, Fresh, Fresh, Fresh, Fresh, \
    Fresh, Fresh, Fresh, Fresh, Fresh, Fresh, Fresh, Fresh, Fresh, Fresh, Fresh, Fresh, Fresh, Fresh, Fresh, \
    Fresh, Fresh, Fresh, Fresh, Fresh, Fresh, Fresh, Fresh, Fresh, Fresh, Fresh, Fresh, Fresh, Fresh, Fresh, \
    Fresh, Fresh, Fresh, Fresh, Fresh, Fresh, Fresh, Fresh, Fresh, Fresh, Fresh, Fresh, Fresh, Fresh, Fresh, \
    Fresh, Fresh, Fresh, Fresh, Fresh, Fills(0), Fills(1)] [Closed, Completing] []\n\
    take = Some(0)\n\
    look 0 = Some(0)\n\
    impose 0 = Imposed\n\
    deliver 0 = Held(0) [Repeated, Repeated, Repeated, Repeated, Repeated, Repeated, Repeated, Repeated, Repeated, \
    Repeated, Repeated, Repeated, Repeated, Repeated, Repeated, Repeated, Repeated, Repeated, Repeated, Repeated, \
    Repeated, Repeated, Repeated, Repeated, Repeated, Repeated, Repeated, Repeated, Repeated, Repeated, Repeated, \
    Repeated, Repeated, Repeated, Repeated, Repeated, Repeated, Repeated, Repeated, Repeated, Repeated, Repeated, \
    Repeated, Repeated, Repeated, Repeated, Repeated, Repeated, Repeated, Repeated, Repeated, Repeated, Repeated, \
    Repeated, Repeated, Repeated, Repeated, Repeated, Repeated, Repeated, Repeated, Repeated, Repeated, Repeated, \
    Repeated] [] []\n\
    take = None\n\
";

#[test]
fn each_call_is_answered_as_told(rt: HostRuntime) {
    for story in [
        TWICE,
        AGAIN,
        HANDED_BACK,
        BLANK,
        ANOTHER_PAGE,
        OWN_PAGE,
        FILLED,
        IN_ORDER,
        IN_64_SLOTS,
        IN_65_SLOTS,
    ] {
        assert_that(&rt, refuse_each(&rt, rt.alloc(), &Story { story }));
    }
}
