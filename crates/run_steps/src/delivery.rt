//! The first step of a run: a prepared page is put on the shelf, published in the table, and marked in each of its slots.
ghost use Rattle.std.specs.Prelude.{◌≡◌, ℕ, ◌<◌, ◌≤◌, ◌+◌, ◌++◌, [], ◌∷◌, List, length, All, filter};
ghost use Rattle.std.specs.Prelude.{IfOk, IfErr, OnOk, IsTrue, MatchResult, vec_capacity, if◌then◌else◌};
ghost use Rattle.rules.specs.Sheets.{layout};
ghost use Rattle.gather_table.specs.Shared.{IsSeatOf, MakesCalls};
ghost use Rattle.sheet_plan.specs.Places.{places_of};
ghost use Rattle.handover.specs.Passes.{IsPassOf, puts_in};
ghost use Rattle.handover.specs.Shelves.{IsOn, IsOwn};
ghost use Rattle.run_steps.specs.Delivery.{IsReady, is_filling, place_calls, answer_list, completes_sheet};
ghost use Rattle.run_steps.specs.Delivery.{calls_of, AreAnswered, completed, HandedOn};
ghost use Rattle.run_steps.specs.HandingBack.{HandsBack};

use gather_table::{Closing, GatherTable, Published, Reply, Seat};
use handover::{Full, Overflow, Pass, Prepared, PutError, Ready, Receipt, Shelf};
use sheet_plan::Plan;
use std::alloc::{AllocError, Global};
use std::fmt;
use std::fmt::Debug;
use std::sync::Wait;

/// The result of a delivery: the receipt of the page, the answers of the table, and the sheets that the queue refused.
#[derive(Debug, Drop)]
pub struct Delivered<'d> {
    /// The receipt with which any thread can read the page from the shelf.
    pub receipt: Receipt<'d>,
    /// The reply to the publishing of the page: the page got the index in the receipt, or keeps an earlier index.
    pub published: Published,
    /// The reply to each mark, one for each place (a sheet and a slot) of the page, in order.
    pub replies: Vec<Reply>,
    /// The reply to each closing of a group, in order. A group of a wide sheet is closed if a mark filled it.
    pub closings: Vec<Closing>,
    /// The sheets that the page completed and that the queue refused, in order. The queue or the pass had no room for them.
    pub handed_back: Vec<u32>,
}

/// The reason why a page wasn't delivered. The table, the queue, the seat and the pass are unchanged.
#[derive(Drop)]
pub enum DeliverError<'d> {
    /// Memory was refused. The page is returned, and the shelf is unchanged.
    NoMemory(Prepared<'d>),
    /// The page is on the shelf, but its index has more than 32 bits, so there is no receipt for it.
    ShelfFull(Overflow<'d>),
}

// This implementation is written by hand, since a derived one takes a minute to prove.
impl Debug for DeliverError<'_> {
    fn fmt<W: fmt::Write>(&self, f: &mut fmt::Formatter<W>) -> fmt::Result {
        f.write_str(match self {
            DeliverError::NoMemory(_) => "NoMemory(..)",
            DeliverError::ShelfFull(_) => "ShelfFull(..)",
        })
    }
}

/// Delivers a prepared page: puts it on the shelf, publishes it in the table, and marks its places in order. If a mark fills a group of a wide sheet,
/// the group is closed before the next place is marked. If a mark or a closing completes a sheet, the sheet is put on the queue at once. The call may
/// wait for other threads that are using the shelf or the queue.
///
/// The table must be one of this plan. All memory is reserved before the first call on the table or the queue, so that a refusal of memory leaves
/// both unchanged. Fails with `NoMemory` if memory is refused, and with `ShelfFull` if the page's index on the shelf has more than 32 bits.
pub fn deliver<'d, R: Wait>(
    rt: &R,
    alloc: Global,
    seat: &mut Seat,
    pass: &mut Pass,
    table: &GatherTable<'_>,
    shelf: &Shelf<'d>,
    ready: &Ready,
    plan: &Plan<'_>,
    prepared: Prepared<'d>,
) -> Result<Delivered<'d>, DeliverError<'d>>
    requires seat { IsSeatOf table.now seat.old }
    requires pass { IsPassOf ready.now pass.old }
    requires plan { table.now.layout ≡ layout plan.now }
    requires page { prepared.page < plan.now.pages }

    // At Ok the seat published the page at the receipt's index and marked each of its places once, in order. It closed each group directly after the
    // mark that filled it, and made no other calls.
    ensures called { MatchResult result
        (λ d. MakesCalls seat.old (calls_of table.now.layout prepared.entry.page d) seat.new)
        (λ e. seat.new ≡ seat.old) }
    ensures answered { IfOk result (λ d.
        AreAnswered table.now.layout prepared.entry.page d.replies.items d.closings.items) }
    ensures seat { IsSeatOf table.now seat.new }

    // At Ok each sheet that the page completed was put on the queue, in order, except those handed back.
    ensures handed_on { MatchResult result
        (λ d. HandedOn ready.now (completed (calls_of table.now.layout prepared.entry.page d)) d.handed_back.items
        pass.old pass.new)
        (λ e. pass.new ≡ pass.old) }

    // If the pass has room for all places of the page, no sheet is handed back.
    ensures by_right { IfOk result (λ d. length (places_of table.now.layout prepared.entry.page) ≤ puts_in pass.old.room
        → d.handed_back.items ≡ []) }
    ensures pass { IsPassOf ready.now pass.new }
    ensures receipt { IfOk result (λ d. IsOn shelf.now d.receipt × (d.receipt.value ≡ prepared.entry)) }
    ensures refused { IfErr result (HandsBack shelf.now prepared.entry) }
{
    let delivery = Delivery {
        plan: &*plan,
        table: &*table,
        shelf,
        ready: &*ready,
        as_own: false,
    };
    delivery.deliver(rt, seat, pass, prepared, Answers::new(alloc))
}

/// The objects that deliveries use: a plan, the table of this plan, the shelf for prepared pages, and the queue for completed sheets.
#[derive(Drop)]
pub struct Delivery<'f, 'p, 't, 'd> {
    pub plan: &'f Plan<'p>,
    pub table: &'f GatherTable<'t>,
    pub shelf: &'f Shelf<'d>,
    pub ready: &'f Ready,
    /// Whether pages are put on the shelf as pages of the shelf's own document. If they are, an imposer needn't compare their bytes with the
    /// document's.
    pub as_own: bool,
    ghost same_plan: { table.now.layout ≡ layout plan.now },
}

impl<'f, 'p, 't, 'd> Delivery<'f, 'p, 't, 'd> {
    /// Delivers a page like the function `deliver`, but stores the answers in the memory of `answers`. If `as_own` is true, the page must be a page
    /// of the shelf's document.
    pub fn deliver<R: Wait>(
        &self,
        rt: &R,
        seat: &mut Seat,
        pass: &mut Pass,
        prepared: Prepared<'d>,
        answers: Answers,
    ) -> Result<Delivered<'d>, DeliverError<'d>>
        requires seat { IsSeatOf self.now.table.now seat.old }
        requires pass { IsPassOf self.now.ready.now pass.old }
        requires page { prepared.page < self.now.plan.now.pages }
        requires own { IsTrue self.now.as_own → IsOwn self.now.shelf.now prepared }

        // At Ok the seat published the page at the receipt's index and marked each of its places once, in order. It closed each group directly after
        // the mark that filled it, and made no other calls.
        ensures called { MatchResult result
            (λ d. MakesCalls seat.old (calls_of self.now.table.now.layout prepared.entry.page d) seat.new)
            (λ e. seat.new ≡ seat.old) }
        ensures answered { IfOk result (λ d.
            AreAnswered self.now.table.now.layout prepared.entry.page d.replies.items d.closings.items) }
        ensures seat { IsSeatOf self.now.table.now seat.new }

        // At Ok each sheet that the page completed was put on the queue, in order, except those handed back.
        ensures handed_on { MatchResult result
            (λ d. HandedOn self.now.ready.now (completed (calls_of self.now.table.now.layout prepared.entry.page d))
            d.handed_back.items pass.old pass.new)
            (λ e. pass.new ≡ pass.old) }

        // If the pass has room for all places of the page, no sheet is handed back.
        ensures by_right { IfOk result (λ d.
            length (places_of self.now.table.now.layout prepared.entry.page) ≤ puts_in pass.old.room
            → d.handed_back.items ≡ []) }
        ensures pass { IsPassOf self.now.ready.now pass.new }
        ensures receipt { IfOk result (λ d. IsOn self.now.shelf.now d.receipt × (d.receipt.value ≡ prepared.entry)) }
        ensures refused { IfErr result (HandsBack self.now.shelf.now prepared.entry) }
    {
        let page = prepared.page();
        let places = self.plan.slots_of_page(page);
        let mut answers = answers;
        let Ok(()) = answers.reserve(places.len()) else {
            return Err(DeliverError::NoMemory(prepared));
        };
        let receipt = match self.shelf.put_as(rt, prepared, self.as_own) {
            Ok(receipt) => receipt,
            Err(error) => match error {
                PutError::NoMemory(prepared) => return Err(DeliverError::NoMemory(prepared)),
                PutError::ShelfFull(overflow) => return Err(DeliverError::ShelfFull(overflow)),
            },
        };
        let published = self.table.publish(seat, page, receipt.index());
        self.mark_places(rt, seat, pass, places, &mut answers);
        let Answers {
            replies,
            closings,
            handed_back,
        } = answers;
        Ok(Delivered {
            receipt,
            published,
            replies,
            closings,
            handed_back,
        })
    }

    /// Marks these places in order. After each mark, closes the group if the mark filled one, and puts the sheet on the queue if the mark or the
    /// closing completed it. The lists of answers must be empty, with memory reserved for one entry per place.
    fn mark_places<R: Wait>(
        &self,
        rt: &R,
        seat: &mut Seat,
        pass: &mut Pass,
        places: &[(u32, u16)],
        answers: &mut Answers,
    )
        requires seat { IsSeatOf self.now.table.now seat.old }
        requires pass { IsPassOf self.now.ready.now pass.old }
        requires places { All (IsReady self.now.table.now.layout seat.old.front) places.now }
        requires replies { (answers.old.replies.items ≡ []) × (length places.now ≤ vec_capacity answers.old.replies) }
        requires closings { (answers.old.closings.items ≡ []) × (length places.now ≤ vec_capacity answers.old.closings) }
        requires handed_back { (answers.old.handed_back.items ≡ [])
            × (length places.now ≤ vec_capacity answers.old.handed_back) }
        ensures called { MakesCalls seat.old (place_calls places.now answers.new.replies.items answers.new.closings.items)
            seat.new }
        ensures replies { length answers.new.replies.items ≡ length places.now }
        ensures closings { length answers.new.closings.items ≡ length (filter is_filling answers.new.replies.items) }
        ensures pass { IsPassOf self.now.ready.now pass.new }
        ensures handed_on { HandedOn self.now.ready.now
            (completed (place_calls places.now answers.new.replies.items answers.new.closings.items))
            answers.new.handed_back.items pass.old pass.new }
    {
        for place in places {
            let (reply, closing) = mark_and_close(self.table, seat, *place);
            answers.replies.push_reserved(reply);
            push_closing(&mut answers.closings, closing);
            let completed = completes_sheet(reply, closing);
            hand_on_completed(
                rt,
                self.ready,
                pass,
                place.0,
                completed,
                &mut answers.handed_back,
            );
        }
    }
}

/// The lists for the answers of a delivery and for the sheets handed back. Their memory is reused from one delivery to the next.
#[derive(Drop)]
pub struct Answers {
    replies: Vec<Reply>,
    closings: Vec<Closing>,
    handed_back: Vec<u32>,
}

impl Answers {
    /// Makes empty lists, without allocating memory.
    pub fn new(alloc: Global) -> Self {
        Answers {
            replies: Vec::new(alloc),
            closings: Vec::new(alloc),
            handed_back: Vec::new(alloc),
        }
    }

    /// The lists of an earlier delivery. The next delivery empties them before it uses them.
    pub fn of(delivered: Delivered<'_>) -> Self {
        let Delivered {
            receipt: _,
            published: _,
            replies,
            closings,
            handed_back,
        } = delivered;
        Answers {
            replies,
            closings,
            handed_back,
        }
    }

    /// Empties the lists, and reserves memory for the answers of a page with this number of places. The only error is refused memory.
    fn reserve(&mut self, places: usize) -> Result<(), AllocError>
        ensures replies { OnOk result ((self.new.replies.items ≡ []) × (places ≤ vec_capacity self.new.replies)) }
        ensures closings { OnOk result ((self.new.closings.items ≡ []) × (places ≤ vec_capacity self.new.closings)) }
        ensures handed_back { OnOk result ((self.new.handed_back.items ≡ [])
            × (places ≤ vec_capacity self.new.handed_back)) }
    {
        self.replies.clear();
        self.replies.reserve(places)?;
        self.closings.clear();
        self.closings.reserve(places)?;
        self.handed_back.clear();
        self.handed_back.reserve(places)?;
        Ok(())
    }
}

/// Marks this place (a sheet and a slot), and closes the group that the mark filled, if it filled one.
fn mark_and_close(
    table: &GatherTable<'_>,
    seat: &mut Seat,
    place: (u32, u16),
) -> (Reply, Option<Closing>)
    requires seat { IsSeatOf table.now seat.old }
    requires place { IsReady table.now.layout seat.old.front place }
    ensures called { MakesCalls seat.old (place_calls (place ∷ []) (result.0 ∷ []) (answer_list result.1)) seat.new }
    ensures answered { length (answer_list result.1) ≡ length (filter is_filling (result.0 ∷ [])) }
{
    let (sheet, slot) = place;
    let reply = table.mark(seat, sheet, slot);
    let Reply::Fills(group) = reply else {
        return (reply, None);
    };
    let closing = table.close_group(seat, sheet, group);
    (reply, Some(closing))
}

/// Adds the reply to a closing to the list, if there was a closing. The list must have memory reserved for one more reply.
fn push_closing(closings: &mut Vec<Closing>, closing: Option<Closing>)
    requires room { length closings.old.items < vec_capacity closings.old }
    ensures items { closings.new.items ≡ closings.old.items ++ answer_list closing }
    ensures room { vec_capacity closings.old ≤ vec_capacity closings.new }
{
    if let Some(closing) = closing {
        closings.push_reserved(closing);
    }
}

/// Whether a sheet was completed by a mark with this reply, or by the closing that followed the mark.
fn completes_sheet(reply: Reply, closing: Option<Closing>) -> bool
    ensures { result ≡ completes_sheet reply closing }
{
    match (reply, closing) {
        (Reply::Completing, _) => true,
        (Reply::Fills(_), Some(Closing::Completing)) => true,
        _ => false,
    }
}

/// Puts the sheet on the queue if it was completed. If the queue refuses the sheet, it is added to `handed_back`, which must have memory reserved for
/// it.
fn hand_on_completed<R: Wait>(
    rt: &R,
    ready: &Ready,
    pass: &mut Pass,
    sheet: u32,
    completed: bool,
    handed_back: &mut Vec<u32>,
)
    requires pass { IsPassOf ready.now pass.old }
    requires room { length handed_back.old.items < vec_capacity handed_back.old }
    ensures pass { IsPassOf ready.now pass.new }
    ensures room { vec_capacity handed_back.old ≤ vec_capacity handed_back.new }
    ensures few { length handed_back.new.items ≤ length handed_back.old.items + 1 }
    ensures handed_on { (back : List ℕ) × (handed_back.new.items ≡ handed_back.old.items ++ back)
        × HandedOn ready.now (if completed then sheet ∷ [] else []) back pass.old pass.new }
{
    if !completed {
        return;
    }
    if let Err(Full(sheet)) = ready.put(rt, pass, sheet) {
        handed_back.push_reserved(sheet);
    }
}
