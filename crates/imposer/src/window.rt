//! The window: the sheets that may be imposed now.
ghost use Rattle.std.specs.Prelude.{◌≡◌, ◌<◌, ◌≤◌, IsTrue, false, length, min, ◌⊎◌};
ghost use Rattle.std.specs.Prelude.{if◌then◌else◌};
ghost use Rattle.std.specs.FinSet as set;
ghost use Rattle.std.specs.Duration.{as_nanos};
ghost use Rattle.rules.specs.Parts.{pages};
ghost use Rattle.imposer.specs.Windows.{bytes_of_texts, bytes_together, window_len};

use crate::sheet_set::SheetSet;
use crate::worker_counts::Workers;
use crossbeam_utils::{Backoff, CachePadded};
use sheet_text::Job;
use std::alloc::Global;
use std::sync::Wait;
use std::sync::atomic::Ordering::SeqCst;
use std::sync::atomic::{AtomicBool, AtomicU64};
use std::time::Duration;

/// The approximate number of bytes that the texts of a window have together, within the limits on its number of sheets.
const BYTES_AHEAD: usize = 786_432;

/// The approximate number of bytes of text around a placed page.
const BYTES_ROUND_A_PAGE: usize = 256;

/// The cost of a sheet apart from the cost of its text. It is an estimate, expressed as a number of bytes.
const BYTES_BESIDE: usize = 32;

/// The greatest number of sheets in a window.
const MOST_SHEETS: usize = 4_096;

/// The least number of sheets in a long window. While messages come, such a window moves by at least a quarter of its length at a time. A thread that
/// has slept for lack of work in it doesn't spin again, because it would find little work so soon.
const MANY_SHEETS: u32 = 256;

/// The divisor for batches. In one message an imposer sends at most an eighth of a window's sheets, at most an eighth of its share of all sheets, and
/// at least one sheet. So imposers work at the same time as each other and as the collector.
const BATCHES: u32 = 8;

/// The length of the shortest nap, in microseconds.
const SHORTEST_NAP: u64 = 50;

/// The length of the longest nap, in microseconds.
const LONGEST_NAP: u64 = 400;

/// The number of times that a thread yields the processor in place of its first naps. While threads start, work comes sooner than a nap ends.
const FIRST_YIELDS: u32 = 100;

/// The sheets that may be imposed now: `len` sheets, beginning with `next`, or all further sheets if the window has no end. Finished texts take
/// memory until they are written. So an imposer only notes the number of a sheet past the window, and imposes the sheet when the window reaches it.
#[derive(Drop)]
pub(crate) struct Window {
    /// The next sheet to be written (counted from 0), or a sheet shortly before it.
    next: CachePadded<AtomicU64>,
    /// Whether the window has no end. It loses its end once a sheet may never come, or once nothing more is collected.
    lifted: AtomicBool,
    /// The number of sheets in the window, as long as it has an end.
    pub(crate) len: u32,
    /// The number of sheets that must be written after a move of the window before `come_to` moves the window again.
    step: u32,
    /// The greatest number of sheets that an imposer sends in one message.
    pub(crate) batch: u32,
}

impl Window {
    /// A window for a job whose slots have `bytes` bytes of text together. The window has at least two sheets, at least one for each imposer, and at
    /// most 4,096. Within these limits, its sheets have about 768 KiB of text.
    ///
    /// A step is never longer than the window. So once all sheets of the window are written, the window has moved, and imposers that wait for it go
    /// on.
    pub(crate) fn new(job: &Job<'_, '_>, workers: Workers, bytes: usize) -> Self
        requires bytes { bytes ≡ min (bytes_of_texts job.now) usize.MAX }
        ensures len { result.len ≡ window_len (length job.now.plan.sheets) workers.imposers bytes }
        ensures step { (0 < result.step) × (result.step ≤ result.len) }
        ensures batch { (0 < result.batch) × (result.batch ≤ result.len) }
    {
        let text = (bytes / (job.sheets() as usize).max(1)).min(BYTES_AHEAD);
        let fitting = (BYTES_AHEAD / (text + BYTES_BESIDE)).min(MOST_SHEETS) as u32;
        let len = fitting.max(workers.imposers).max(2);
        let share = job.sheets() / workers.imposers.max(1);
        let batch = (len.min(share) / BATCHES).max(1);
        Window {
            next: CachePadded::new(AtomicU64::new(0)),
            lifted: AtomicBool::new(false),
            len,
            step: if len < MANY_SHEETS { 1 } else { len / 4 },
            batch,
        }
    }

    /// The first sheet past the window, counted from 0. It is `u32::MAX` if the window has no end.
    pub(crate) fn end(&self) -> u32 {
        if self.lifted.load(SeqCst) {
            return u32::MAX;
        }
        self.next().saturating_add(self.len)
    }

    /// The next sheet to be written (counted from 0), or a sheet shortly before it.
    fn next(&self) -> u32 {
        u32::try_from(self.next.load(SeqCst)).unwrap_or(u32::MAX)
    }

    /// Tells the window that all sheets before `next` are written. The window moves only if a whole step has been written since it last moved.
    /// Imposers read the position of the window for each sheet. With long steps, the position stays in their caches.
    pub(crate) fn come_to(&self, next: u32) {
        if next >= self.next().saturating_add(self.step) {
            self.move_to(next);
        }
    }

    /// Moves the window so that it begins with the sheet `next`. All sheets before this sheet have been written.
    pub(crate) fn move_to(&self, next: u32) {
        self.next.store(u64::from(next), SeqCst);
    }

    /// Removes the end of the window, since a sheet may never come or nothing more will be written.
    pub(crate) fn lift(&self) {
        self.lifted.store(true, SeqCst);
    }

    /// Spins briefly, yields the processor once, or sleeps for at most 400 microseconds. Nothing wakes a sleeping thread earlier.
    pub(crate) fn rest<R: Wait>(&self, rt: &R, idling: &mut Idling) {
        if idling.may_yield() {
            idling.backoff.snooze();
        } else {
            self.next.park_timeout(rt, self.next(), idling.next_nap());
        }
    }

    /// The state of a thread that begins to look for work.
    pub(crate) fn idling(&self) -> Idling {
        Idling {
            backoff: Backoff::new(),
            yields: if self.step > 1 { 0 } else { FIRST_YIELDS },
            nap: SHORTEST_NAP,
            is_long: self.step > 1,
        }
    }
}

/// The way in which a thread waits for work. It first spins and yields the processor a few times, and then takes naps. In a short window it yields
/// more often at the start of the run, begins anew once it has found work, and takes only short naps. In a long window each nap is twice as long as
/// the one before, up to the longest.
#[derive(Drop)]
pub(crate) struct Idling {
    backoff: Backoff,
    /// The number of times that the thread still yields the processor in place of its first naps.
    yields: u32,
    /// The length of the next nap, in microseconds. If this number is greater than the longest nap, the longest nap is taken.
    nap: u64,
    /// Whether the window is long.
    is_long: bool,
}

impl Idling {
    /// Notes that work was found. In a short window the thread spins and yields again when it next waits.
    pub(crate) fn end(&self) {
        if !self.is_long {
            self.backoff.reset();
        }
    }

    /// Whether the thread spins or yields once more. After the yields of its backoff, counts one of those in place of its first naps.
    fn may_yield(&mut self) -> bool {
        if !self.backoff.is_completed() {
            return true;
        }
        let is_left = self.yields > 0;
        self.yields = self.yields.saturating_sub(1);
        is_left
    }

    /// The length of the nap to take now. In a long window the next nap is twice as long, up to the longest.
    fn next_nap(&mut self) -> Duration
        ensures least { 50_000 ≤ as_nanos result }
        ensures most { as_nanos result ≤ (if self.old.is_long then 400_000 else 50_000) }
        ensures same { self.new.is_long ≡ self.old.is_long }
    {
        let longest = if self.is_long {
            LONGEST_NAP
        } else {
            SHORTEST_NAP
        };
        let nap = self.nap.max(SHORTEST_NAP).min(longest);
        self.nap = nap.saturating_mul(2);
        Duration::from_micros(nap)
    }
}

/// The number of bytes of all pages, and the approximate number of bytes in the texts of all slots. Each is `usize::MAX` if it would be greater.
pub(crate) fn bytes_of_pages(job: &Job<'_, '_>) -> (usize, usize)
    ensures pages { result.0 ≡ min (bytes_together (pages job.now.units)) usize.MAX }
    ensures texts { result.1 ≡ min (bytes_of_texts job.now) usize.MAX }
{
    let mut of_pages = 0usize;
    let mut of_slots = 0usize;
    for page in 0..job.plan().pages() {
        let bytes = job.document().page(page).len();
        let slots = job.plan().slots_of_page(page).len();
        of_pages = of_pages.saturating_add(bytes);
        let placed = bytes.saturating_add(BYTES_ROUND_A_PAGE);
        of_slots = of_slots.saturating_add(placed.saturating_mul(slots));
    }
    (of_pages, of_slots)
}

/// The sheets that an imposer holds: it took them off the queue while they were past the window.
#[derive(Drop)]
pub(crate) struct Held {
    pub(crate) sheets: SheetSet,
    /// The end of the window at the imposer's last look that found no held sheet in it.
    looked_to: u32,
}

impl Held {
    /// Makes an empty set of held sheets, without allocating memory.
    pub(crate) fn new(alloc: Global) -> Self
        ensures { result.sheets ≡ set.empty }
    {
        Held {
            sheets: SheetSet::new(alloc),
            looked_to: 0,
        }
    }

    /// Whether sheets are held and the window has moved since the last call. If so, the imposer should wait for these sheets, and leave the sheets on
    /// the queue to other imposers.
    pub(crate) fn come_nearer(&mut self, end: u32) -> bool
        ensures kept { self.new.looked_to ≡ end }
        ensures same { self.new.sheets ≡ self.old.sheets }
        ensures some { IsTrue result → ¬ (self.old.sheets ≡ set.empty) }
        ensures moved { IsTrue result → ¬ (self.old.looked_to ≡ end) }
        ensures stays { result ≡ false → (self.old.sheets ≡ set.empty) ⊎ (self.old.looked_to ≡ end) }
    {
        let moved = self.looked_to != end;
        self.looked_to = end;
        moved && !self.sheets.is_empty()
    }
}
