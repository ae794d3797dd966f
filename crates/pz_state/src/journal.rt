//! What leads back from a state to its marks.

ghost use Rattle.std.specs.Prelude.{◌≡◌, ◌≤◌, ◌<◌, ◌++◌, [], ◌∷◌, true, false, length, slice_set, IfOk, OnOk, OnErr, vec_len, vec_capacity};
ghost use Rattle.pz_state.specs.devices.StoredStates.{KeepsRoom};
ghost use Rattle.pz_state.specs.devices.Journals.{undone_entry, is_mark, noted, while_marked, IsReadyEntry, AreReady, Undoes, IsClosed, HasNoMarkAfter, HasNoMarkAfterLatest};
ghost use Rattle.pz_state.specs.devices.Spots.{IsNotedAt, IsFree};

use crate::contents::Contents;
use crate::guesses::{GUESSES, Guesses};
use crate::spots::{Spot, noted_spot};
use pz_value::Value;
use std::alloc::{AllocError, Global};

/// What a change replaced, or what takes it back.
#[derive(Debug, Drop)]
pub enum Change {
    Variable { slot: u32, old: Value },
    Local { frame: u64, slot: usize, old: Value },
    Item { object: u32, place: u32, old: Value },
    /// An object had so many items, and has more.
    Grown { object: u32, count: usize },
    /// An object had these further items, in reverse.
    Cut { object: u32, items: Vec<Value> },
    Opened { frame: u64 },
    Closed { frame: u64, locals: Vec<Value> },
    Made,
}

/// A step of a journal.
#[derive(Debug, Drop)]
pub enum Entry {
    /// An open mark.
    Mark,
    /// A mark that is open no more.
    Kept,
    Change(Change),
}

/// The marks of a state that are open, and the changes since the first of them, the latest last.
#[derive(Debug, Drop)]
pub struct Journal {
    pub entries: Vec<Entry>,
    // where the open marks stand, the latest last
    pub places: Vec<usize>,
    // where spots are noted
    guesses: Guesses,
}

/// Whether there is an entry at this place that notes the spot.
fn is_noted_at(entries: &[Entry], place: usize, spot: Spot) -> bool
    ensures { result ≡ true → IsNotedAt entries.now place spot }
{
    if place >= entries.len() {
        return false;
    }
    match noted_spot(&entries[place]) {
        Some(noted) => noted == spot,
        None => false,
    }
}

/// The same, if the place is after another one.
fn is_noted_after(entries: &[Entry], after: usize, place: usize, spot: Spot) -> bool
    requires { HasNoMarkAfter entries.now after }
    ensures { result ≡ true → IsFree spot entries.now }
{
    if place <= after {
        return false;
    }
    is_noted_at(entries, place, spot)
}

impl Journal {
    pub fn new(alloc: Global) -> Journal
        ensures entries { result.entries.items ≡ [] }
        ensures places { result.places.items ≡ [] }
    {
        Journal {
            entries: Vec::new(alloc),
            places: Vec::new(alloc),
            guesses: Guesses::new(alloc),
        }
    }

    /// Whether a mark is open, so that a change has to be noted, for which there is room then. The
    /// only error is want of memory.
    pub fn reserve(&mut self) -> Result<bool, AllocError>
        ensures entries { self.new.entries.items ≡ self.old.entries.items }
        ensures places { self.new.places.items ≡ self.old.places.items }
        ensures spared { IfOk result (λ noting. noting ≡ false →
            length self.old.places.items ≡ 0) }
        ensures marked { IfOk result (λ noting. noting ≡ true →
            0 < length self.old.places.items) }
        ensures room { IfOk result (λ noting. noting ≡ true →
            vec_len self.new.entries < vec_capacity self.new.entries) }
    {
        if self.places.is_empty() {
            return Ok(false);
        }
        self.entries.reserve(1)?;
        Ok(true)
    }

    /// Whether the spot is known to be noted after a place.
    fn has_noted(&self, spot: Spot, after: usize) -> bool
        requires { HasNoMarkAfter self.now.entries.items after }
        ensures { result ≡ true → IsFree spot self.now.entries.items }
    {
        for guess in 0..GUESSES {
            let place = self.guesses.get(spot, guess);
            if is_noted_after(self.entries.as_slice(), after, place, spot) {
                return true;
            }
        }
        false
    }

    /// Whether an assignment to the spot has to be noted, for which there is room then: a mark is
    /// open, and since the latest none was noted. The only error is want of memory.
    pub fn prepare(&mut self, spot: Spot) -> Result<bool, AllocError>
        requires settled { length self.old.places.items ≡ 0 → self.old.entries.items ≡ [] }
        requires latest { HasNoMarkAfterLatest self.old.places.items self.old.entries.items }
        ensures entries { self.new.entries.items ≡ self.old.entries.items }
        ensures places { self.new.places.items ≡ self.old.places.items }
        ensures spared { IfOk result (λ noting. noting ≡ false →
            IsFree spot self.old.entries.items) }
        ensures marked { IfOk result (λ noting. noting ≡ true →
            0 < length self.old.places.items) }
        ensures room { IfOk result (λ noting. noting ≡ true →
            vec_len self.new.entries < vec_capacity self.new.entries) }
    {
        let Some(latest) = self.places.last().copied() else {
            return Ok(false);
        };
        if self.has_noted(spot, latest) {
            return Ok(false);
        }
        self.entries.reserve(1)?;
        self.guesses.reserve(self.entries.as_slice())?;
        self.guesses.put(spot, latest, self.entries.len());
        Ok(true)
    }

    /// Notes a change that has to be noted; there is room for it.
    pub fn note(&mut self, noting: bool, change: Change)
        requires { noting ≡ true → vec_len self.old.entries < vec_capacity self.old.entries }
        ensures entries { self.new.entries.items ≡ noted noting change self.old.entries.items }
        ensures places { self.new.places.items ≡ self.old.places.items }
    {
        if noting {
            self.entries.push_reserved(Entry::Change(change));
        }
    }

    /// Opens a mark, and gives its place. The only error is want of memory, and then all stays.
    pub fn mark(&mut self) -> Result<usize, AllocError>
        ensures place { IfOk result (λ place. place ≡ length self.old.entries.items) }
        ensures entries { OnOk result (self.new.entries.items ≡
            self.old.entries.items ++ Entry.Mark ∷ []) }
        ensures places { IfOk result (λ place. self.new.places.items ≡
            self.old.places.items ++ place ∷ []) }
        ensures err_entries { OnErr result (self.new.entries.items ≡ self.old.entries.items) }
        ensures err_places { OnErr result (self.new.places.items ≡ self.old.places.items) }
    {
        let place = self.entries.len();
        self.places.reserve(1)?;
        self.entries.push(Entry::Mark)?;
        self.places.push_reserved(place);
        Ok(place)
    }

    /// The latest mark is open no more. Without any, nothing is kept.
    pub fn close_mark(&mut self)
        ensures entries { self.new.entries.items ≡
            while_marked (length self.new.places.items) self.old.entries.items }
        ensures places { IsClosed self.old.places.items self.new.places.items }
    {
        let _latest = self.places.pop();
        if self.places.is_empty() {
            self.entries.clear();
        }
    }

    /// Leaves the latest mark, which stands at this place. Takes no memory.
    pub fn keep(&mut self, place: usize)
        requires { place < length self.old.entries.items }
        ensures entries { self.new.entries.items ≡ while_marked (length self.new.places.items)
            (slice_set self.old.entries.items place Entry.Kept) }
        ensures places { IsClosed self.old.places.items self.new.places.items }
    {
        self.entries[place] = Entry::Kept;
        self.close_mark();
    }
}

/// Takes one entry back, and tells whether it was an open mark.
fn undo_entry(contents: &mut Contents, entry: Entry) -> bool
    requires { IsReadyEntry contents.old.room entry contents.old.state }
    ensures mark { result ≡ is_mark entry }
    ensures state { contents.new.state ≡ undone_entry entry contents.old.state }
    ensures room { KeepsRoom contents.old.room contents.new }
{
    match entry {
        Entry::Mark => true,
        Entry::Kept => false,
        Entry::Change(change) => {
            contents.take_back(change);
            false
        }
    }
}

/// Takes entries back until an open mark has been taken. Takes no memory.
pub fn undo_last(contents: &mut Contents, entries: &mut Vec<Entry>)
    requires { AreReady contents.old.room entries.old.items contents.old.state }
    ensures undone { Undoes contents.old.state entries.old.items contents.new.state
        entries.new.items }
    ensures ready { AreReady contents.new.room entries.new.items contents.new.state }
    ensures fewer { length contents.new.state.objects ≤ length contents.old.state.objects }
{
    while let Some(entry) = entries.pop() {
        if undo_entry(contents, entry) {
            return;
        }
    }
}
