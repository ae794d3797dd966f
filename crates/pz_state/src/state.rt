//! The state of a process.

ghost use Rattle.std.specs.Prelude.{◌≡◌, ◌<◌, ◌≤◌, ◌↔◌, ◌^◌, [], length, map, All, AllPairs, Err, IfOk, OnOk, OnErr};
ghost use Rattle.pz_state.specs.States.{object_limit, initial, variable, locals, local, object, HasVariable, HasFrame, HasLocal, HasObject, HasItem, IsLeastFree, set_variable, set_local, set_item, resized, opened, closed, made};
ghost use Rattle.pz_state.specs.References.{RefersWithin, IsSelfContained};
ghost use Rattle.pz_state.specs.Marks.{IsLatest, changed, marked, undone, kept};

use crate::Object;
use crate::contents::Contents;
use crate::journal::{Change, Journal, undo_last};
use crate::spots::Spot;
use pz_value::{ClassId, Value};
use std::alloc::{AllocError, Global};
use std::marker::Model;

/// The most objects of a state.
pub const OBJECT_LIMIT: u32 = 16_777_216;

/// The number of a frame, from 1.
#[derive(Clone, Copy, Debug, PartialEq, Eq)]
pub struct FrameId(pub u64);

/// A mark of a state, to which its changes can be undone.
#[derive(Clone, Copy, Debug)]
pub struct Savepoint {
    // where the mark stands in the journal
    place: usize,
}

impl Model for Savepoint {
    ghost use Rattle.std.specs.Prelude.{ℕ};

    ghost Value = { ℕ };

    ghost view = { λ p. p.place };

    ghost inverse = { λ n. record { place = n } };
}

/// Why [`State::make`] made no object.
#[derive(Clone, Copy, Debug, PartialEq, Eq)]
pub enum MakeError {
    /// Memory was wanting.
    NoMemory,
    /// As many objects as may be are there.
    StoreFull,
}

impl From<AllocError> for MakeError {
    ghost use Rattle.std.specs.Prelude.{◌≡◌};
    ghost use Rattle.pz_state.specs.declared.state.MakeError.TheVariants.{NoMemory};

    ghost from_gives = { λ _ error. error ≡ NoMemory };

    fn from(_: AllocError) -> MakeError {
        MakeError::NoMemory
    }
}

/// The state of a process: its variables, the locals of its open frames, and its objects. References
/// in it name its objects. Marks nest; while one is open, what leads back to it is kept: a variable, a
/// local or an item once, however often it is assigned. Undoing costs as much as what is kept.
#[derive(Debug, Drop)]
pub struct State {
    contents: Contents,
    journal: Journal,
}

impl Model for State {
    ghost use Rattle.pz_state.specs.Marks.{Seen};

    ghost Value = { Seen };

    ghost use Rattle.pz_state.specs.devices.Fields.{seen, IsKept};

    ghost view = { seen };

    ghost invariant = { IsKept };
}

impl State {
    /// The state of a process whose variables have these values, in which no object is yet. Takes no
    /// memory.
    pub fn new(alloc: Global, variables: Vec<Value>) -> State
        requires { All (RefersWithin 0) variables.items }
        ensures { result ≡ record { held = initial variables.items; marks = [] } }
    {
        State {
            contents: Contents::new(alloc, variables),
            journal: Journal::new(alloc),
        }
    }

    /// How many variables there are. Takes no memory.
    pub fn variables(&self) -> usize
        ensures { result ≡ length self.now.held.vars }
    {
        self.contents.variables()
    }

    /// The locals of the frame of this number, none where no such frame is open. Takes no memory.
    pub fn locals(&self, frame: FrameId) -> &[Value]
        ensures value { result.now ≡ locals self.now.held frame.0 }
        ensures within { All (RefersWithin (length self.now.held.objects)) result.now }
    {
        self.contents.locals(frame.0)
    }

    /// The numbers of the open frames, in increasing order. The only error is want of memory.
    pub fn frames(&self) -> Result<Vec<FrameId>, AllocError>
        ensures frames { IfOk result (λ frames. map (λ n. n.0) frames.items ≡ map
            (λ f. f.0) self.now.held.frames) }
        ensures ordered { AllPairs (λ m n. m < n) (map (λ f. f.0) self.now.held.frames) }
    {
        self.contents.frames()
    }

    /// A variable. Takes no memory.
    pub fn var(&self, slot: u32) -> &Value
        requires { HasVariable self.now.held slot }
        ensures value { result.now ≡ variable self.now.held slot }
        ensures within { RefersWithin (length self.now.held.objects) result.now }
    {
        self.contents.var(slot)
    }

    /// A local of an open frame. Takes no memory.
    pub fn local(&self, frame: FrameId, slot: usize) -> &Value
        requires { HasLocal self.now.held frame.0 slot }
        ensures value { result.now ≡ local self.now.held frame.0 slot }
        ensures within { RefersWithin (length self.now.held.objects) result.now }
    {
        self.contents.local(frame.0, slot)
    }

    /// An object by its number. Takes no memory.
    pub fn object(&self, r: u32) -> &Object
        requires { HasObject self.now.held r }
        ensures value { result.now.object ≡ object self.now.held r }
        ensures within { All (RefersWithin (length self.now.held.objects)) result.now.object.items }
        ensures counted { length result.now.object.items < 2 ^ 32 }
    {
        self.contents.object(r)
    }

    /// How many objects there are. Takes no memory.
    pub fn objects(&self) -> u32
        ensures count { result ≡ length self.now.held.objects }
        ensures limit { result ≤ object_limit }
        ensures contained { IsSelfContained self.now.held }
    {
        self.contents.objects() as u32
    }

    /// Gives a variable a value. The only error is want of memory, and then all is as before.
    pub fn set_var(&mut self, slot: u32, value: Value) -> Result<(), AllocError>
        requires there { HasVariable self.old.held slot }
        requires within { RefersWithin (length self.old.held.objects) value }
        ensures ok { OnOk result (self.new ≡ changed self.old
            (set_variable self.old.held slot value)) }
        ensures err { OnErr result (self.new ≡ self.old) }
    {
        let noting = self.journal.prepare(Spot::Variable { slot })?;
        let change = self.contents.set_var(slot, value);
        self.journal.note(noting, change);
        Ok(())
    }

    /// Gives a local of an open frame a value. The only error is want of memory, and then all is as
    /// before.
    pub fn set_local(&mut self, frame: FrameId, slot: usize, value: Value) -> Result<(), AllocError>
        requires there { HasLocal self.old.held frame.0 slot }
        requires within { RefersWithin (length self.old.held.objects) value }
        ensures ok { OnOk result (self.new ≡ changed self.old
            (set_local self.old.held frame.0 slot value)) }
        ensures err { OnErr result (self.new ≡ self.old) }
    {
        let spot = Spot::Local {
            frame: frame.0,
            slot,
        };
        let noting = self.journal.prepare(spot)?;
        let change = self.contents.set_local(frame.0, slot, value);
        self.journal.note(noting, change);
        Ok(())
    }

    /// Gives an item of an object a value. The only error is want of memory, and then all is as
    /// before.
    pub fn set_item(&mut self, r: u32, item: u32, value: Value) -> Result<(), AllocError>
        requires there { HasItem self.old.held r item }
        requires within { RefersWithin (length self.old.held.objects) value }
        ensures ok { OnOk result (self.new ≡ changed self.old
            (set_item self.old.held r item value)) }
        ensures err { OnErr result (self.new ≡ self.old) }
    {
        let spot = Spot::Item {
            object: r,
            place: item,
        };
        let noting = self.journal.prepare(spot)?;
        let change = self.contents.set_item(r, item, value);
        self.journal.note(noting, change);
        Ok(())
    }

    /// Gives an object so many items: it is cut, or filled with nil. The only error is want of
    /// memory, and then all is as before.
    pub fn resize(&mut self, r: u32, items: u32) -> Result<(), AllocError>
        requires { HasObject self.old.held r }
        ensures ok { OnOk result (self.new ≡ changed self.old (resized self.old.held r items)) }
        ensures err { OnErr result (self.new ≡ self.old) }
    {
        let noting = self.journal.reserve()?;
        let change = self.contents.resize(r, items)?;
        self.journal.note(noting, change);
        Ok(())
    }

    /// Opens a frame with so many locals, all nil, under the least number from 1 that no open frame
    /// has. The only error is want of memory, and then all is as before.
    pub fn open_frame(&mut self, locals: u32) -> Result<FrameId, AllocError>
        ensures least { IfOk result (λ frame. IsLeastFree self.old.held.frames frame.0) }
        ensures ok { IfOk result (λ frame. self.new ≡ changed self.old
            (opened self.old.held frame.0 locals)) }
        ensures err { OnErr result (self.new ≡ self.old) }
    {
        let noting = self.journal.reserve()?;
        let frame = self.contents.open_frame(locals)?;
        self.journal.note(noting, Change::Opened { frame });
        Ok(FrameId(frame))
    }

    /// Closes a frame. The only error is want of memory, and then all is as before.
    pub fn close_frame(&mut self, frame: FrameId) -> Result<(), AllocError>
        requires { HasFrame self.old.held frame.0 }
        ensures ok { OnOk result (self.new ≡ changed self.old (closed self.old.held frame.0)) }
        ensures err { OnErr result (self.new ≡ self.old) }
    {
        let noting = self.journal.reserve()?;
        let change = self.contents.close_frame(frame.0);
        self.journal.note(noting, change);
        Ok(())
    }

    /// Makes an object with so many items, all nil, and gives its number. At a refusal all is as
    /// before.
    pub fn make(&mut self, class: ClassId, items: u32) -> Result<u32, MakeError>
        ensures number { IfOk result (λ r. r ≡ length self.old.held.objects) }
        ensures ok { OnOk result (self.new ≡ changed self.old (made self.old.held class items)) }
        ensures err { OnErr result (self.new ≡ self.old) }
        ensures full { result ≡ Err MakeError.StoreFull
            ↔ (length self.old.held.objects ≡ object_limit) }
    {
        let count = self.objects();
        if count == OBJECT_LIMIT {
            return Err(MakeError::StoreFull);
        }
        let noting = self.journal.reserve()?;
        self.contents.make(class, items)?;
        self.journal.note(noting, Change::Made);
        Ok(count)
    }

    /// Marks the state as it is. The only error is want of memory, and then all is as before.
    pub fn mark(&mut self) -> Result<Savepoint, AllocError>
        ensures ok { IfOk result (λ point. self.new ≡ marked self.old point) }
        ensures err { OnErr result (self.new ≡ self.old) }
    {
        let place = self.journal.mark()?;
        Ok(Savepoint { place })
    }

    /// Undoes the changes since the latest open mark, and leaves the mark. Takes no memory.
    pub fn undo_to(&mut self, point: Savepoint)
        requires { IsLatest self.old point }
        ensures { self.new ≡ undone self.old }
    {
        let _latest = point;
        undo_last(&mut self.contents, &mut self.journal.entries);
        self.journal.close_mark();
    }

    /// Leaves the latest open mark; the changes since it stay. Takes no memory.
    pub fn keep(&mut self, point: Savepoint)
        requires { IsLatest self.old point }
        ensures { self.new ≡ kept self.old }
    {
        self.journal.keep(point.place);
    }
}
