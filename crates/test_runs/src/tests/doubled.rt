//! Tests in which each page of a document is delivered more than once, by one caller or by several at once. Each sheet must be completed once.
ghost use Rattle.std.specs.Prelude.{◌<◌};

use super::callers::gatherer::{Gatherer, Outcome, gatherer_of, outcome_of};
use super::table_and_shelf;
use super::tally::Tally;
use crate::tests::checks::{assert_that, done};
use dsc::Document;
use gather_table::{Closing, Published, Reply};
use handover::Ready;
use lengths::a4;
use pagespec::read_spec;
use run_steps::Delivered;
use sheet_plan::Plan;
use sheet_text::Job;
use std::alloc::Global;
use std::process::Abort;
use std::sync::Wait;
use std::sync::atomic::AtomicUsize;
use std::sync::atomic::Ordering::SeqCst;
use std::thread::{Threads, for_each_mut};
use test_tools::{document_of, same_items};

/// The number of sheets, the number of slots on each sheet, and the number of slots that have the same page.
#[derive(Clone, Copy)]
struct Sizes {
    sheets: u32,
    slots: u32,
    places: u32,
}

impl Sizes {
    fn all_slots(self) -> u32 {
        self.sheets.saturating_mul(self.slots)
    }

    fn pages(self) -> u32 {
        self.all_slots().checked_div(self.places).unwrap_or(0)
    }

    /// The number of slot groups of all sheets together. It is 0 for sheets with at most 64 slots, which have no groups to close.
    fn groups(self) -> u32 {
        if self.slots > 64 {
            self.sheets.saturating_mul(2)
        } else {
            0
        }
    }
}

/// The index of the first counter for pages that are stored. The constants after this one are those for slots marked, groups filled, sheets
/// completed, sheets imposed, and faults. Slots and groups are numbered through all sheets.
const STORED: usize = 0;

const MARKED: usize = 1_000;

const FILLED: usize = 2_000;

const COMPLETED: usize = 3_000;

const IMPOSED: usize = 4_000;

const WRONG: usize = 5_000;

/// The deeds of all callers, counted by kind and number, and the number of their calls that close a group of slots.
#[derive(Drop)]
struct Done {
    sizes: Sizes,
    deeds: Tally,
    closings: AtomicUsize,
}

impl Done {
    /// The counts before any deed.
    fn nothing<R: Abort>(rt: &R, alloc: Global, sizes: Sizes) -> Done {
        Done {
            sizes,
            deeds: Tally::new(rt, alloc, WRONG),
            closings: AtomicUsize::new(0),
        }
    }

    fn add(&self, deed: usize, number: u32) {
        self.deeds.add(deed.saturating_add(number as usize));
    }

    /// Counts the reply to a mark of this slot, on this sheet, unless the slot was marked before.
    fn add_reply(&self, slot: u32, sheet: u32, reply: Reply) {
        match reply {
            Reply::Repeated => return,
            Reply::Completing => self.add(COMPLETED, sheet),
            Reply::Fills(group) => {
                let first = sheet.saturating_mul(2);
                self.add(FILLED, first.saturating_add(u32::from(group)));
            }
            Reply::Fresh => (),
        }
        self.add(MARKED, slot);
    }

    /// Counts the deeds in the answer to a delivery of this page.
    fn add_delivery(&self, page: u32, delivered: &Delivered<'_>) {
        if delivered.published == Published::Stored {
            self.add(STORED, page);
        }
        let mut slot = page.saturating_mul(self.sizes.places);
        let sheet = slot.checked_div(self.sizes.slots).unwrap_or(0);
        for reply in delivered.replies.as_slice() {
            self.add_reply(slot, sheet, *reply);
            slot = slot.saturating_add(1);
        }
        for closing in delivered.closings.as_slice() {
            self.closings.fetch_add(1, SeqCst);
            if *closing == Closing::Completing {
                self.add(COMPLETED, sheet);
            }
        }
    }

    /// Delivers a page, and counts its deeds. A fault is counted if the delivery is refused, if a sheet is handed back, or if the answer and the
    /// table have different indices for the page.
    fn deliver<R: Wait>(
        &self,
        rt: &R,
        alloc: Global,
        gatherer: &mut Gatherer<'_, '_, '_, '_>,
        page: u32,
    ) {
        let Some(delivered) = gatherer.deliver_page(rt, alloc, page) else {
            return self.add(WRONG, page);
        };
        let index = match delivered.published {
            Published::Stored => delivered.receipt.index(),
            Published::Held(index) => index,
        };
        if gatherer.page_at(page) != Some(index) || !delivered.handed_back.is_empty() {
            self.add(WRONG, page);
        }
        self.add_delivery(page, &delivered);
    }

    /// Delivers all pages. Callers with an even number begin with the first page, and callers with an odd number with the last one.
    fn deliver_all<R: Wait>(
        &self,
        rt: &R,
        alloc: Global,
        caller: usize,
        gatherer: &mut Gatherer<'_, '_, '_, '_>,
    ) {
        let pages = self.sizes.pages();
        for step in 0..pages {
            let page = if caller % 2 == 0 {
                step
            } else {
                pages - 1 - step
            };
            self.deliver(rt, alloc, gatherer, page);
        }
    }

    /// Takes the sheets of the job from the queue, imposes them, and counts those whose text is right. Returns whether the queue is then empty.
    fn take_all<R: Wait>(
        &self,
        rt: &R,
        alloc: Global,
        gatherer: &mut Gatherer<'_, '_, '_, '_>,
    ) -> bool {
        for _ in 0..self.sizes.sheets {
            if let Some(sheet) = gatherer.take(rt) {
                if matches!(outcome_of(alloc, gatherer, sheet), Ok(Outcome::Imposed)) {
                    self.add(IMPOSED, sheet);
                }
            }
        }
        gatherer.take(rt).is_none()
    }

    /// Whether each page was stored once, each slot marked once, each group filled once, and each sheet completed and imposed once. All groups must
    /// be closed, and no fault may be counted.
    fn is_each_once(&self) -> bool {
        let sizes = self.sizes;
        let mut all = 0usize;
        for (deed, count) in [
            (STORED, sizes.pages()),
            (MARKED, sizes.all_slots()),
            (FILLED, sizes.groups()),
            (COMPLETED, sizes.sheets),
            (IMPOSED, sizes.sheets),
        ] {
            if !self.deeds.are_once(deed, count as usize) {
                return false;
            }
            all = all.saturating_add(count as usize);
        }
        self.deeds.all() == all && self.closings.load(SeqCst) == sizes.groups() as usize
    }
}

/// A list of `count` further gatherers of this gatherer's job.
fn others_of<'s, 'j, 't, 'd, R: Abort>(
    rt: &R,
    alloc: Global,
    gatherer: &mut Gatherer<'s, 'j, 't, 'd>,
    count: u32,
) -> Vec<Gatherer<'s, 'j, 't, 'd>> {
    let mut others = Vec::new(alloc);
    for _ in 0..count {
        let other = gatherer.another().expect(rt, "another share");
        done(rt, others.push(other));
    }
    others
}

/// A test in which each of `callers` callers delivers each page, in `threads` threads.
#[derive(Clone, Copy)]
struct Repeats {
    sizes: Sizes,
    callers: u32,
    threads: usize,
    ghost any: { 0 < threads },
}

impl Repeats {
    fn deliver<R: Threads + Wait + Sync + Abort>(
        &self,
        rt: &R,
        alloc: Global,
        gatherer: &mut Gatherer<'_, '_, '_, '_>,
        noted: &Done,
    ) {
        let mut callers = others_of(rt, alloc, gatherer, self.callers);
        for_each_mut(
            rt,
            callers.as_mut_slice(),
            self.threads,
            &|number, caller: &mut Gatherer<'_, '_, '_, '_>| {
                noted.deliver_all(rt, alloc, number, caller)
            },
        );
    }

    /// Delivers the pages. Asserts that each deed is done once, and that the queue gives each sheet once.
    fn look<R: Threads + Wait + Sync + Abort>(
        &self,
        rt: &R,
        alloc: Global,
        gatherer: &mut Gatherer<'_, '_, '_, '_>,
    ) {
        let noted = Done::nothing(rt, alloc, self.sizes);
        self.deliver(rt, alloc, gatherer, &noted);
        assert_that(rt, noted.take_all(rt, alloc, gatherer));
        assert_that(rt, noted.is_each_once());
    }

    /// Runs the test of `look` on a job, with a queue that has room for each sheet once.
    fn look_at_job<R: Threads + Wait + Sync + Abort>(
        &self,
        rt: &R,
        alloc: Global,
        job: &Job<'_, '_>,
    ) {
        assert_that(rt, job.sheets() == self.sizes.sheets);
        let (ready, pass) = done(rt, Ready::new(alloc, job.sheets().max(1)));
        let (table, seat, shelf) = table_and_shelf(rt, alloc, job);
        let mut gatherer = gatherer_of(job, &table, &shelf, &ready, seat, pass);
        self.look(rt, alloc, &mut gatherer);
    }

    /// Runs the test of `look` on a document, whose pages are placed by a specification.
    fn look_at_document<R: Threads + Wait + Sync + Abort>(
        &self,
        rt: &R,
        alloc: Global,
        text: &str,
        items: &str,
    ) {
        let spec = done(rt, read_spec(alloc, items));
        let document = done(rt, Document::read(alloc, text.as_bytes()));
        let plan = done(rt, Plan::new(alloc, &spec, document.pages()));
        self.look_at_job(rt, alloc, &Job::new(&plan, &document, a4(), None));
    }
}

/// A specification with 65 pages on a sheet.
const SIXTY_FIVE_PAGES: &str = "\
    65:0+1+2+3+4+5+6+7+8+9+10+11+12+13+14+15+16+17+18+19+20+21+22+23+24+25+26+27+28+29+30+31+32+33+34+35\
    +36+37+38+39+40+41+42+43+44+45+46+47+48+49+50+51+52+53+54+55+56+57+58+59+60+61+62+63+64\
";

/// Runs the test of `look` with these numbers of callers and threads on several jobs. Four of them have one page on a sheet, and two pages on each of
/// one, two and ten sheets. The slots of these sheets share one word of the table. The others have two sheets of 65 pages, and one page 65 times on a
/// sheet.
fn deliver_each<R: Threads + Wait + Sync + Abort>(
    rt: &R,
    alloc: Global,
    callers: u32,
    threads: usize,
)
    requires { 0 < threads }
{
    let page_65_times = done(rt, same_items(alloc, "0", 65));
    for (items, sheets, slots, places) in [
        ("0", 1, 1, 1),
        ("2:0+1", 1, 2, 1),
        ("2:0+1", 2, 2, 1),
        ("2:0+1", 10, 2, 1),
        (SIXTY_FIVE_PAGES, 2, 65, 1),
        (page_65_times.as_str(), 1, 65, 65),
    ] {
        let sizes = Sizes {
            sheets,
            slots,
            places,
        };
        let repeats = Repeats {
            sizes,
            callers,
            threads,
        };
        let text = done(rt, document_of(alloc, sizes.pages()));
        repeats.look_at_document(rt, alloc, &text, items);
    }
}

#[test]
fn one_caller_delivers_each_page_twice(rt: HostRuntime) {
    deliver_each(&rt, rt.alloc(), 2, 1);
}

#[test]
fn two_threads_deliver_each_page_at_once(rt: HostRuntime) {
    deliver_each(&rt, rt.alloc(), 2, 2);
}

#[test]
fn four_threads_deliver_each_page_at_once(rt: HostRuntime) {
    deliver_each(&rt, rt.alloc(), 4, 4);
}
