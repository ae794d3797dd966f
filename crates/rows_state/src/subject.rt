ghost use Rattle.std.specs.Prelude.{◌≡◌, true, length, Some};
ghost use Rattle.std.specs.Option.{option_map};
ghost use Rattle.pz_copy.specs.pz_state.States.{HasItem, locals_in};

use crate::show;
use pz_copy::pz_state::{FrameId, MakeError, Savepoint, State, nil_values};
use pz_copy::pz_value::{ClassId, Value};
use std::alloc::{AllocError, Global};
use std::io;
use std::marker::Model;

/// An open frame and how many locals it has.
#[derive(Clone, Copy)]
struct Frame {
    id: FrameId,
    locals: u32,
}

/// An open mark, and the frame that was named when it was made.
#[derive(Clone, Copy)]
struct Saved {
    point: Savepoint,
    frame: Option<Frame>,
}

/// A state that is changed call by call, only where what a call names is there.
#[derive(Drop)]
pub struct Subject {
    state: State,
    variables: u32,
    // the frame that `local` and `close` are about
    frame: Option<Frame>,
    saved: Vec<Saved>,
}

impl Model for Subject {
    ghost use Rattle.pz_copy.specs.pz_state.Marks.{Seen};
    ghost use Rattle.rows_state.specs.devices.Shadows.{IsShadowed};

    ghost Value = { Seen };

    ghost view = { λ s. s.state };

    ghost invariant = { IsShadowed };
}

/// Whether an object has this item.
fn has_item(state: &State, r: u32, item: u32) -> bool
    ensures { result ≡ true → HasItem state.now.held r item }
{
    if r < state.objects() {
        (item as usize) < state.object(r).items().len()
    } else {
        false
    }
}

fn show_frame(rt: &HostRuntime, state: &State, frame: Frame) -> io::Result<()>
    requires { option_map length (locals_in state.now.held.frames frame.id.0) ≡ Some frame.locals }
{
    let number = frame.id.0;
    print!(rt; "; frame {number}:")?;
    for slot in 0..frame.locals {
        print!(rt; " ")?;
        show::value(rt, state.local(frame.id, slot as usize))?;
    }
    Ok(())
}

impl Subject {
    pub fn new(alloc: Global, variables: u32) -> Result<Subject, AllocError> {
        let state = State::new(alloc, nil_values(alloc, variables)?);
        Ok(Subject {
            state,
            variables,
            frame: None,
            saved: Vec::new(alloc),
        })
    }

    pub fn objects(&self) -> u32 {
        self.state.objects()
    }

    pub fn set_variable(&mut self, slot: u32, number: i64) -> Result<(), AllocError> {
        if slot < self.variables {
            self.state.set_var(slot, Value::Int(number))?;
        }
        Ok(())
    }

    pub fn set_item(&mut self, r: u32, item: u32, number: i64) -> Result<(), AllocError> {
        if has_item(&self.state, r, item) {
            self.state.set_item(r, item, Value::Int(number))?;
        }
        Ok(())
    }

    pub fn resize(&mut self, r: u32, items: u32) -> Result<(), AllocError> {
        if r < self.state.objects() {
            self.state.resize(r, items)?;
        }
        Ok(())
    }

    pub fn make(&mut self, class: u32, items: u32) -> Result<u32, MakeError> {
        self.state.make(ClassId(class), items)
    }

    /// Opens a frame that is not named.
    pub fn open(&mut self, locals: u32) -> Result<FrameId, AllocError> {
        self.state.open_frame(locals)
    }

    /// Opens a frame that is named from now on.
    pub fn enter(&mut self, locals: u32) -> Result<FrameId, AllocError> {
        let id = self.state.open_frame(locals)?;
        self.frame = Some(Frame { id, locals });
        Ok(id)
    }

    /// Sets a local of the named frame.
    pub fn set_local(&mut self, slot: u32, number: i64) -> Result<(), AllocError> {
        if let Some(frame) = self.frame {
            if slot < frame.locals {
                self.state
                    .set_local(frame.id, slot as usize, Value::Int(number))?;
            }
        }
        Ok(())
    }

    /// Closes the named frame.
    pub fn close(&mut self) -> Result<(), AllocError> {
        if let Some(frame) = self.frame {
            self.state.close_frame(frame.id)?;
            self.frame = None;
        }
        Ok(())
    }

    pub fn mark(&mut self) -> Result<(), AllocError> {
        self.saved.reserve(1)?;
        let point = self.state.mark()?;
        self.saved.push_reserved(Saved {
            point,
            frame: self.frame,
        });
        Ok(())
    }

    /// Undoes to the latest mark; the frame that was named then is named again.
    pub fn undo(&mut self) {
        if let Some(saved) = self.saved.pop() {
            self.state.undo_to(saved.point);
            self.frame = saved.frame;
        }
    }

    pub fn keep(&mut self) {
        if let Some(saved) = self.saved.pop() {
            self.state.keep(saved.point);
        }
    }

    fn show_variables(&self, rt: &HostRuntime) -> io::Result<()> {
        print!(rt; "variables")?;
        for slot in 0..self.variables {
            print!(rt; " ")?;
            show::value(rt, self.state.var(slot))?;
        }
        Ok(())
    }

    fn show_named(&self, rt: &HostRuntime) -> io::Result<()> {
        match self.frame {
            Some(frame) => show_frame(rt, &self.state, frame),
            None => print!(rt; "; no frame"),
        }
    }

    fn show_objects(&self, rt: &HostRuntime) -> io::Result<()> {
        for r in 0..self.state.objects() {
            let object = self.state.object(r);
            let class = object.class().0;
            print!(rt; "; object {r} of {class}:")?;
            for item in object.items() {
                print!(rt; " ")?;
                show::value(rt, item)?;
            }
        }
        Ok(())
    }

    /// Shows variables, the named frame and objects, and ends the line.
    pub fn show(&self, rt: &HostRuntime) -> io::Result<()> {
        self.show_variables(rt)?;
        self.show_named(rt)?;
        self.show_objects(rt)?;
        println!(rt;)
    }
}
