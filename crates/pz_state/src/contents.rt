//! What a state holds, and how it changes.

ghost use Rattle.std.specs.Prelude.{◌≡◌, ◌≤◌, ◌<◌, ◌+◌, ◌++◌, length, map, take, reverse, get_or, AllPairs, IfOk, OnOk, OnErr};
ghost use Rattle.pz_state.specs.States.{initial, variable, locals, local, object, HasVariable, HasFrame, HasLocal, HasObject, HasItem, IsLeastFree, at_object, set_variable, set_local, set_item, resized, opened, closed, made};
ghost use Rattle.pz_state.specs.devices.StoredStates.{IsWider, KeepsRoom};
ghost use Rattle.pz_state.specs.devices.Changes.{taken_back, without_last, IsReady, LeadsBack};

use crate::frames::FrameTable;
use crate::journal::Change;
use crate::values::nil_values;
use crate::{FrameId, Object};
use pz_value::{ClassId, Value};
use std::alloc::{AllocError, Global};
use std::marker::Model;

/// What a state holds: variables, open frames and objects. Each change gives what takes it back.
#[derive(Debug, Drop)]
pub struct Contents {
    vars: Vec<Value>,
    frames: FrameTable,
    objects: Vec<Object>,
}

impl Model for Contents {
    ghost use Rattle.pz_state.specs.devices.StoredStates.{StoredState, stored_state};

    ghost Value = { StoredState };

    ghost view = { stored_state };
}

impl Contents {
    /// These variables, and nothing else. Takes no memory.
    pub fn new(alloc: Global, vars: Vec<Value>) -> Contents
        ensures { result.state ≡ initial vars.items }
    {
        Contents {
            vars,
            frames: FrameTable::new(alloc),
            objects: Vec::new(alloc),
        }
    }

    /// How many variables there are.
    pub fn variables(&self) -> usize
        ensures { result ≡ length self.now.state.vars }
    {
        self.vars.len()
    }

    /// The locals of the frame of this number, none where no such frame is open.
    pub fn locals(&self, frame: u64) -> &[Value]
        ensures { result.now ≡ locals self.now.state frame }
    {
        self.frames.locals(frame)
    }

    /// The numbers of the open frames, in increasing order. The only error is want of memory.
    pub fn frames(&self) -> Result<Vec<FrameId>, AllocError>
        ensures frames { IfOk result (λ frames. map (λ n. n.0) frames.items ≡ map
            (λ f. f.0) self.now.state.frames) }
        ensures ordered { AllPairs (λ m n. m < n) (map (λ f. f.0) self.now.state.frames) }
    {
        self.frames.numbers()
    }

    pub fn var(&self, slot: u32) -> &Value
        requires { HasVariable self.now.state slot }
        ensures { result.now ≡ variable self.now.state slot }
    {
        &self.vars[slot as usize]
    }

    pub fn local(&self, frame: u64, slot: usize) -> &Value
        requires { HasLocal self.now.state frame slot }
        ensures { result.now ≡ local self.now.state frame slot }
    {
        self.frames.local(frame, slot)
    }

    pub fn object(&self, r: u32) -> &Object
        requires { HasObject self.now.state r }
        ensures { result.now.object ≡ object self.now.state r }
    {
        &self.objects[r as usize]
    }

    /// How many objects there are.
    pub fn objects(&self) -> usize
        ensures { result ≡ length self.now.state.objects }
    {
        self.objects.len()
    }

    pub fn set_var(&mut self, slot: u32, value: Value) -> Change
        requires { HasVariable self.old.state slot }
        ensures state { self.new.state ≡ set_variable self.old.state slot value }
        ensures back { LeadsBack self.old self.new result }
    {
        let old = crate::values::replace(&mut self.vars, slot as usize, value);
        Change::Variable { slot, old }
    }

    pub fn set_local(&mut self, frame: u64, slot: usize, value: Value) -> Change
        requires { HasLocal self.old.state frame slot }
        ensures state { self.new.state ≡ set_local self.old.state frame slot value }
        ensures back { LeadsBack self.old self.new result }
    {
        let old = self.frames.replace(frame, slot, value);
        Change::Local { frame, slot, old }
    }

    pub fn set_item(&mut self, r: u32, place: u32, value: Value) -> Change
        requires { HasItem self.old.state r place }
        ensures state { self.new.state ≡ set_item self.old.state r place value }
        ensures back { LeadsBack self.old self.new result }
    {
        let object = &mut self.objects[r as usize];
        let old = object.replace(place as usize, value);
        Change::Item {
            object: r,
            place,
            old,
        }
    }

    /// Opens a frame of so many nils. The only error is want of memory, and then the state stays.
    pub fn open_frame(&mut self, locals: u32) -> Result<u64, AllocError>
        ensures least { IfOk result (λ number. IsLeastFree self.old.state.frames number) }
        ensures state { IfOk result (λ number. self.new.state ≡
            opened self.old.state number locals) }
        ensures back { IfOk result (λ number. LeadsBack self.old self.new (Change.Opened number)) }
        ensures err { OnErr result (self.new.state ≡ self.old.state) }
        ensures room { IsWider self.old.room self.new.room }
    {
        let locals = nil_values(*self.vars.allocator(), locals)?;
        self.frames.open(locals)
    }

    pub fn close_frame(&mut self, frame: u64) -> Change
        requires { HasFrame self.old.state frame }
        ensures state { self.new.state ≡ closed self.old.state frame }
        ensures back { LeadsBack self.old self.new result }
    {
        let locals = self.frames.close(frame);
        Change::Closed { frame, locals }
    }

    /// Makes an object of so many nils. The only error is want of memory, and then the state stays.
    pub fn make(&mut self, class: ClassId, items: u32) -> Result<(), AllocError>
        ensures state { OnOk result (self.new.state ≡ made self.old.state class items) }
        ensures back { OnOk result (LeadsBack self.old self.new Change.Made) }
        ensures err { OnErr result (self.new.state ≡ self.old.state) }
        ensures room { IsWider self.old.room self.new.room }
    {
        let object = Object::of_nils(*self.vars.allocator(), class, items)?;
        self.objects.push(object)?;
        Ok(())
    }

    /// Adds nils to an object until it has so many items. The only error is want of memory, and then
    /// the state stays.
    fn grow(&mut self, r: u32, count: u32) -> Result<Change, AllocError>
        requires there { HasObject self.old.state r }
        requires grows { length (object self.old.state r).items ≤ count }
        ensures state { IfOk result (λ change. self.new.state ≡ resized self.old.state r count) }
        ensures back { IfOk result (λ change. LeadsBack self.old self.new change) }
        ensures err { OnErr result (self.new.state ≡ self.old.state) }
        ensures room { IsWider self.old.room self.new.room }
    {
        let object = &mut self.objects[r as usize];
        let before = object.items().len();
        object.grow(count as usize)?;
        Ok(Change::Grown {
            object: r,
            count: before,
        })
    }

    /// Cuts an object, so that it has so many items. The only error is want of memory, and then the
    /// state stays.
    fn cut(&mut self, r: u32, count: u32) -> Result<Change, AllocError>
        requires there { HasObject self.old.state r }
        requires cuts { count ≤ length (object self.old.state r).items }
        ensures state { IfOk result (λ change. self.new.state ≡ resized self.old.state r count) }
        ensures back { IfOk result (λ change. LeadsBack self.old self.new change) }
        ensures err { OnErr result (self.new.state ≡ self.old.state) }
        ensures room { IsWider self.old.room self.new.room }
    {
        let object = &mut self.objects[r as usize];
        let items = object.cut(count as usize)?;
        Ok(Change::Cut { object: r, items })
    }

    /// Gives an object so many items. The only error is want of memory, and then the state stays.
    pub fn resize(&mut self, r: u32, count: u32) -> Result<Change, AllocError>
        requires { HasObject self.old.state r }
        ensures state { IfOk result (λ change. self.new.state ≡ resized self.old.state r count) }
        ensures back { IfOk result (λ change. LeadsBack self.old self.new change) }
        ensures err { OnErr result (self.new.state ≡ self.old.state) }
        ensures room { IsWider self.old.room self.new.room }
    {
        if self.object(r).items().len() <= count as usize {
            self.grow(r, count)
        } else {
            self.cut(r, count)
        }
    }

    /// Leaves the first so many items of an object.
    fn shorten(&mut self, r: u32, count: usize)
        requires { HasObject self.old.state r }
        ensures state { self.new.state ≡ record self.old.state
            { objects = at_object r (take count) self.old.state.objects } }
        ensures room { IsWider self.old.room self.new.room }
    {
        let object = &mut self.objects[r as usize];
        object.truncate(count);
    }

    /// Adds the items of a list in reverse to an object, which has room for them.
    fn lengthen(&mut self, r: u32, cut: Vec<Value>)
        requires there { HasObject self.old.state r }
        requires room { length (object self.old.state r).items + length cut.items ≤
            get_or self.old.room.items r 0 }
        ensures state { self.new.state ≡ record self.old.state
            { objects = at_object r (λ items. items ++ reverse cut.items) self.old.state.objects } }
        ensures room { IsWider self.old.room self.new.room }
    {
        let object = &mut self.objects[r as usize];
        object.restore(cut);
    }

    /// Drops the object that was made last.
    fn unmake(&mut self)
        ensures state { self.new.state ≡ record self.old.state
            { objects = without_last self.old.state.objects } }
        ensures room { KeepsRoom self.old.room self.new }
    {
        let _object = self.objects.pop();
    }

    /// Takes a change back. Takes no memory.
    pub fn take_back(&mut self, change: Change)
        requires { IsReady self.old.room change self.old.state }
        ensures state { self.new.state ≡ taken_back change self.old.state }
        ensures room { KeepsRoom self.old.room self.new }
    {
        match change {
            Change::Variable { slot, old } => {
                let _new = self.set_var(slot, old);
            }
            Change::Local { frame, slot, old } => {
                let _new = self.set_local(frame, slot, old);
            }
            Change::Item { object, place, old } => {
                let _new = self.set_item(object, place, old);
            }
            Change::Grown { object, count } => self.shorten(object, count),
            Change::Cut { object, items } => self.lengthen(object, items),
            Change::Opened { frame } => {
                let _locals = self.frames.close(frame);
            }
            Change::Closed { frame, locals } => self.frames.open_at(frame, locals),
            Change::Made => self.unmake(),
        }
    }
}
