//! The reorder buffer: it holds finished sheets that must wait, because earlier sheets haven't been written yet.
ghost use Rattle.std.specs.Prelude.{◌≡◌, ◌≢◌, ℕ, ◌<◌, ◌≤◌, Some, None, length, slice_get, true, false, All, IfOk, IfSome, IsNone, MatchOption};
ghost use Rattle.sheet_text.specs.Jobs.{JobView, text_of};
ghost use Rattle.sheet_text.specs.Texts.{TextsView, sheets_of};
ghost use Rattle.sheet_writer.specs.Writing.{HaveTexts, AreEarly, texts_from};
ghost use Rattle.sheet_writer.specs.Places.{last_entry, buffer_place, in_place, HavePlacesOfTheirOwn, has_come};

use sheet_text::{Pieces, Texts};
use std::alloc::{AllocError, Global};

/// Receives the texts of sheets that have been written, so that their memory can be reused.
pub trait Spent<'r> {
    /// Takes the texts of sheets that have been written, whose memory may now be reused.
    fn give_back(&mut self, sheets: Texts<'r>);
}

/// The position of a sheet in the buffer: the index of its group in `groups`, and its own index in that group.
#[derive(Clone, Copy)]
pub struct Place {
    pub group: usize,
    pub nth: usize,
}

/// Finished sheets that wait until all sheets before them are written. The place of a sheet is its number modulo the number of places. So successive
/// sheets have different places, if they are at most as many as the places. Sheets arrive in groups. A group is stored at the place of its last sheet
/// (the sheet with the greatest number), since the whole group has been written once that sheet has.
#[derive(Drop)]
pub struct ReorderBuffer<'r> {
    /// For each place, the position that was last recorded for a sheet with this place. At first it is index 0 of group 0.
    pub places: Vec<Place>,
    /// For each place, the group whose last sheet has this place. None if the place is free.
    pub groups: Vec<Option<Texts<'r>>>,
}

impl<'r> ReorderBuffer<'r> {
    /// Makes a buffer with this number of places, all of them free. The only error is refused memory.
    pub fn new(alloc: Global, count: u32) -> Result<Self, AllocError>
        ensures early { IfOk result (λ early. (job : JobView) → AreEarly job early.groups.items) }
        ensures places { IfOk result (λ early. length early.places.items ≡ count) }
        ensures groups { IfOk result (λ early. length early.groups.items ≡ count) }
        ensures free { IfOk result (λ early. All (λ group. group ≡ None) early.groups.items) }
    {
        let mut places = Vec::with_capacity(alloc, count as usize)?;
        let mut groups = Vec::with_capacity(alloc, count as usize)?;
        for _ in 0..count {
            places.push_reserved(Place { group: 0, nth: 0 });
            groups.push_reserved(None);
        }
        Ok(ReorderBuffer { places, groups })
    }

    /// Stores a group of finished sheets at the place of its last sheet. If that place isn't free, or the buffer has no places, the new group is
    /// dropped, and its sheets are made again when they are to be written. After the call all sheets of a stored group can be found, if no two of
    /// them have the same place. An earlier sheet whose place is taken over counts as one that never came.
    pub fn put(&mut self, finished: Texts<'r>)
        ensures early { (job : JobView) → HaveTexts (text_of job) finished.entry
            → AreEarly job self.old.groups.items → AreEarly job self.new.groups.items }
        ensures count { length self.new.places.items ≡ length self.old.places.items }
        ensures put { in_place self.old (last_entry (sheets_of finished.entry)) ≡ Some None
            → in_place self.new (last_entry (sheets_of finished.entry)) ≡ Some (Some finished.entry) }
        ensures others { (k : ℕ) → k ≢ buffer_place self.old (last_entry (sheets_of finished.entry))
            → slice_get self.new.groups.items k ≡ slice_get self.old.groups.items k }
        ensures came { in_place self.old (last_entry (sheets_of finished.entry)) ≡ Some None
            → HavePlacesOfTheirOwn self.old (sheets_of finished.entry)
            → All (λ sheet. has_come self.new sheet ≡ true) (sheets_of finished.entry) }
        ensures elsewhere { (sheet : ℕ)
            → All (λ one. buffer_place self.old sheet ≢ buffer_place self.old one) (sheets_of finished.entry)
            → has_come self.new sheet ≡ has_come self.old sheet }
        ensures dropped { (other : TextsView) → in_place self.old (last_entry (sheets_of finished.entry)) ≡ Some (Some other)
            → self.new ≡ self.old }
    {
        let group = self.place_of(last(&finished));
        if group >= self.groups.len() || self.groups[group].is_some() {
            return;
        }
        self.mark_all(&finished, group);
        self.groups[group] = Some(finished);
    }

    /// Records the position of each sheet of a group.
    fn mark_all(&mut self, finished: &Texts<'_>, group: usize)
        ensures groups { self.new.groups ≡ self.old.groups }
        ensures count { length self.new.places.items ≡ length self.old.places.items }
        ensures marked { 0 < length self.old.groups.items → HavePlacesOfTheirOwn self.old (sheets_of finished.now)
            → (nth sheet : ℕ) → slice_get (sheets_of finished.now) nth ≡ Some sheet
            → slice_get self.new.places.items (buffer_place self.old sheet) ≡ Some (record { group = group; nth = nth }) }
        ensures others { 0 < length self.old.groups.items
            → (k : ℕ) → All (λ sheet. k ≢ buffer_place self.old sheet) (sheets_of finished.now)
            → slice_get self.new.places.items k ≡ slice_get self.old.places.items k }
    {
        for nth in 0..finished.len() {
            self.mark(finished.sheet(nth), Place { group, nth });
        }
    }

    /// Records the position of a sheet. The position that was recorded for the same place before is lost.
    fn mark(&mut self, sheet: u32, at: Place)
        ensures groups { self.new.groups ≡ self.old.groups }
        ensures count { length self.new.places.items ≡ length self.old.places.items }
        ensures marked { buffer_place self.old sheet < length self.old.places.items → 0 < length self.old.groups.items
            → slice_get self.new.places.items (buffer_place self.old sheet) ≡ Some at }
        ensures others { (k : ℕ) → k ≢ buffer_place self.old sheet → 0 < length self.old.groups.items
            → slice_get self.new.places.items k ≡ slice_get self.old.places.items k }
    {
        let place = self.place_of(sheet);
        if place < self.places.len() {
            self.places[place] = at;
        }
    }

    /// The place of a sheet, counted from 0: its number modulo the number of places.
    fn place_of(&self, sheet: u32) -> usize
        ensures { 0 < length self.now.groups.items → result ≡ buffer_place self.now sheet }
    {
        sheet as usize % self.groups.len().max(1)
    }

    /// The text for a single write: the text of this sheet, and then the texts of the sheets that follow it in number and in memory. A text with
    /// borrowed slices is returned alone. Returns the number of these sheets, which is at most `most`, and the bytes of their texts. None if this
    /// sheet hasn't come.
    pub fn joined(&self, sheet: u32, most: u32) -> Option<(u32, Pieces<'_, 'r>)>
        requires most { 0 < most }
        ensures count { IfSome result (λ j. (0 < j.0) × (j.0 ≤ most)) }
        ensures text { (job : JobView) → AreEarly job self.now.groups.items
            → IfSome result (λ j. j.1 ≡ texts_from job sheet j.0) }
        ensures came { MatchOption result (has_come self.now sheet ≡ false) (λ j. has_come self.now sheet ≡ true) }
    {
        let place = self.place_of(sheet);
        if place >= self.places.len() {
            return None;
        }
        let Place { group, nth } = self.places[place];
        if group >= self.groups.len() {
            return None;
        }
        let Some(finished) = &self.groups[group] else {
            return None;
        };
        finished.joined(sheet, nth, most)
    }

    /// Removes and returns the group whose last sheet this is, and frees its place. If there is no such group, returns None and changes nothing.
    pub fn take_written(&mut self, sheet: u32) -> Option<Texts<'r>>
        ensures early { (job : JobView) → AreEarly job self.old.groups.items → AreEarly job self.new.groups.items }
        ensures places { self.new.places ≡ self.old.places }
        ensures taken { IfSome result (λ m. in_place self.old sheet ≡ Some (Some m)) }
        ensures last { IfSome result (λ m. last_entry (sheets_of m) ≡ sheet) }
        ensures some { (m : TextsView) → in_place self.old sheet ≡ Some (Some m) → last_entry (sheets_of m) ≡ sheet
            → result ≡ Some m }
        ensures freed { IfSome result (λ m. in_place self.new sheet ≡ Some None) }
        ensures others { (k : ℕ) → k ≢ buffer_place self.old sheet
            → slice_get self.new.groups.items k ≡ slice_get self.old.groups.items k }
        ensures stays { (later : ℕ) → sheet < later → has_come self.new later ≡ has_come self.old later }
        ensures none { IsNone result → self.new ≡ self.old }
    {
        let place = self.place_of(sheet);
        if place >= self.groups.len() {
            return None;
        }
        let is_last = matches!(&self.groups[place], Some(finished) if last(finished) == sheet);
        if !is_last {
            return None;
        }
        self.groups[place].take()
    }
}

/// The greatest sheet number in the group. It is 0 if the group is empty.
fn last(finished: &Texts<'_>) -> u32
    ensures { result ≡ last_entry (sheets_of finished.now) }
{
    let mut last = 0;
    for nth in 0..finished.len() {
        last = finished.sheet(nth).max(last);
    }
    last
}
