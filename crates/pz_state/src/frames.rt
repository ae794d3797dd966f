//! The open frames by their numbers.

ghost use Rattle.std.specs.Prelude.{◌≡◌, ◌<◌, ◌≤◌, ◌+◌, ◌^◌, [], length, map, slice_set, AllPairs, Some, None, IsSome, IfOk, OnOk, OnErr};
ghost use Rattle.pz_state.specs.devices.FrameTables.{frames_from};
ghost use Rattle.pz_state.specs.States.{value_at, locals_in, locals_of, at_frame, with_frame, without_frame, IsLeastFree};

use crate::FrameId;
use crate::values::replace;
use pz_state_flags::Flags;
use pz_value::Value;
use std::alloc::{AllocError, Global};
use std::marker::Model;
use std::mem;

/// The open frames. Contracts see them in the order of their numbers, and up to which number frames
/// can be opened without taking memory.
#[derive(Debug, Drop)]
pub struct FrameTable {
    // the locals of each open frame, at the place before its number
    table: Vec<Option<Vec<Value>>>,
    // for each place whether a frame is open there
    flags: Flags,
}

/// The numbers of the open frames of a table, in increasing order.
fn numbers_of(alloc: Global, table: &[Option<Vec<Value>>]) -> Result<Vec<FrameId>, AllocError>
    ensures { IfOk result (λ numbers. map (λ n. n.0) numbers.items ≡ map (λ f. f.0)
        (frames_from 1 table.now)) }
{
    let mut numbers = Vec::new(alloc);
    for (place, locals) in table.iter().enumerate() {
        if locals.is_some() {
            numbers.push(FrameId(place as u64 + 1))?;
        }
    }
    Ok(numbers)
}

impl Model for FrameTable {
    ghost use Rattle.pz_state.specs.devices.FrameTables.{StoredFrames, stored, IsFlagged};

    ghost Value = { StoredFrames };

    ghost view = { λ frames. stored frames.table.items };

    ghost invariant = { IsFlagged };
}

impl FrameTable {
    /// No open frame. Takes no memory.
    pub fn new(alloc: Global) -> FrameTable
        ensures { result.frames ≡ [] }
    {
        FrameTable {
            table: Vec::new(alloc),
            flags: Flags::new(alloc),
        }
    }

    /// Up to which number there is room.
    fn room(&self) -> usize
        ensures { result ≡ self.now.room }
    {
        self.table.len()
    }

    /// A local of an open frame.
    pub fn local(&self, number: u64, slot: usize) -> &Value
        requires { slot < length (locals_of self.now.frames number) }
        ensures { result.now ≡ value_at (locals_of self.now.frames number) slot }
    {
        match &self.table[(number - 1) as usize] {
            Some(locals) => &locals[slot],
            None => unreachable!(),
        }
    }

    /// The locals of the frame of this number, none where no such frame is open.
    pub fn locals(&self, number: u64) -> &[Value]
        ensures { result.now ≡ locals_of self.now.frames number }
    {
        let last = self.table.len() as u64;
        if number == 0 {
            return &[];
        }
        if number > last {
            return &[];
        }
        match &self.table[(number - 1) as usize] {
            Some(locals) => locals.as_slice(),
            None => &[],
        }
    }

    /// The numbers of the open frames, in increasing order. The only error is want of memory.
    pub fn numbers(&self) -> Result<Vec<FrameId>, AllocError>
        ensures numbers { IfOk result (λ numbers. map (λ n. n.0) numbers.items ≡ map
            (λ f. f.0) self.now.frames) }
        ensures ordered { AllPairs (λ m n. m < n) (map (λ f. f.0) self.now.frames) }
    {
        numbers_of(*self.table.allocator(), self.table.as_slice())
    }

    /// Gives a local another value, and hands out the one before.
    pub fn replace(&mut self, number: u64, slot: usize, value: Value) -> Value
        requires { slot < length (locals_of self.old.frames number) }
        ensures frames { self.new.frames ≡ at_frame number
            (λ locals. slice_set locals slot value) self.old.frames }
        ensures back { at_frame number (λ locals. slice_set locals slot result) self.new.frames ≡
            self.old.frames }
        ensures there { slot < length (locals_of self.new.frames number) }
        ensures room { self.new.room ≡ self.old.room }
    {
        match &mut self.table[(number - 1) as usize] {
            Some(locals) => replace(locals, slot, value),
            None => unreachable!(),
        }
    }

    /// Closes an open frame, and hands out its locals.
    pub fn close(&mut self, number: u64) -> Vec<Value>
        requires { IsSome (locals_in self.old.frames number) }
        ensures frames { self.new.frames ≡ without_frame number self.old.frames }
        ensures back { with_frame number result.items self.new.frames ≡ self.old.frames }
        ensures free { locals_in self.new.frames number ≡ None }
        ensures within { (0 < number) × (number ≤ self.new.room) }
        ensures room { self.new.room ≡ self.old.room }
    {
        let frame = mem::replace(&mut self.table[(number - 1) as usize], None);
        self.flags.set((number - 1) as usize, false);
        match frame {
            Some(locals) => locals,
            None => unreachable!(),
        }
    }

    /// The place of the least number from 1 that no open frame has.
    fn free_place(&self) -> usize
        ensures least { IsLeastFree self.now.frames (result + 1) }
        ensures within { result ≤ self.now.room }
        ensures small { result < 2 ^ 63 }
    {
        self.flags.first_clear()
    }

    /// Makes room for one more number. The only error is want of memory, and then all stays.
    fn widen(&mut self) -> Result<(), AllocError>
        ensures frames { self.new.frames ≡ self.old.frames }
        ensures ok { OnOk result (self.new.room ≡ self.old.room + 1) }
        ensures err { OnErr result (self.new.room ≡ self.old.room) }
    {
        self.flags.reserve(self.table.len())?;
        self.table.push(None)?;
        Ok(())
    }

    /// The least number from 1 that no open frame has, for which there is room then. The only error is
    /// want of memory.
    fn free_number(&mut self) -> Result<u64, AllocError>
        ensures least { IfOk result (λ number. IsLeastFree self.old.frames number) }
        ensures within { IfOk result (λ number. number ≤ self.new.room) }
        ensures frames { self.new.frames ≡ self.old.frames }
        ensures room { self.old.room ≤ self.new.room }
    {
        let place = self.free_place();
        if place == self.room() {
            self.widen()?;
        }
        Ok(place as u64 + 1)
    }

    /// Opens a frame with these locals under the least number from 1 that no open frame has. The only
    /// error is want of memory, and then the frames stay.
    pub fn open(&mut self, locals: Vec<Value>) -> Result<u64, AllocError>
        ensures least { IfOk result (λ number. IsLeastFree self.old.frames number) }
        ensures frames { IfOk result (λ number. self.new.frames ≡
            with_frame number locals.items self.old.frames) }
        ensures back { IfOk result (λ number. without_frame number self.new.frames ≡
            self.old.frames) }
        ensures there { IfOk result (λ number. IsSome (locals_in self.new.frames number)) }
        ensures err { OnErr result (self.new.frames ≡ self.old.frames) }
        ensures room { self.old.room ≤ self.new.room }
    {
        let number = self.free_number()?;
        self.open_at(number, locals);
        Ok(number)
    }

    /// Opens a frame under a number for which there is room. Takes no memory.
    pub fn open_at(&mut self, number: u64, locals: Vec<Value>)
        requires within { (0 < number) × (number ≤ self.old.room) }
        requires free { locals_in self.old.frames number ≡ None }
        ensures frames { self.new.frames ≡ with_frame number locals.items self.old.frames }
        ensures room { self.new.room ≡ self.old.room }
    {
        let place = (number - 1) as usize;
        self.flags.set(place, true);
        self.table[place] = Some(locals);
    }
}
