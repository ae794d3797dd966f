// Monitors before the first point, from those of their parts. The only error of each is want of
// memory; then the parts are gone.

ghost use Rattle.std.specs.Prelude.{◌≡◌};
ghost use Rattle.pz_watch.specs.Formulas.{line, negation, both, either, before, once, always, since};
ghost use Rattle.pz_watch.specs.devices.Standing.{IsFresh, IsMadeOf, IsMadeOfBoth};

use crate::{Atom, Monitor, Window};
use std::alloc::{AllocError, Global};

impl Window {
    /// A window at which no point counts yet.
    pub fn new(bound: Option<u64>) -> Window
        ensures bound { result.bound ≡ bound }
        ensures latest { result.latest ≡ None }
    {
        Window {
            bound,
            latest: None,
        }
    }
}

impl Monitor {
    /// What is said of a line.
    pub fn line(atom: Atom) -> Monitor
        ensures { IsFresh result (line atom) }
    {
        Monitor::Atom(atom)
    }

    /// That the part does not hold.
    pub fn negation(alloc: Global, part: Monitor) -> Result<Monitor, AllocError>
        ensures { IsMadeOf negation part result }
    {
        Ok(Monitor::Not(Box::new(alloc, part)?))
    }

    /// That both parts hold.
    pub fn both(alloc: Global, first: Monitor, second: Monitor) -> Result<Monitor, AllocError>
        ensures { IsMadeOfBoth both first second result }
    {
        let second = Box::new(alloc, second)?;
        let first = Box::new(alloc, first)?;
        Ok(Monitor::And(first, second))
    }

    /// That a part holds, or both.
    pub fn either(alloc: Global, first: Monitor, second: Monitor) -> Result<Monitor, AllocError>
        ensures { IsMadeOfBoth either first second result }
    {
        let second = Box::new(alloc, second)?;
        let first = Box::new(alloc, first)?;
        Ok(Monitor::Or(first, second))
    }

    /// That the part held at the point before. There is none before the first.
    pub fn before(alloc: Global, part: Monitor) -> Result<Monitor, AllocError>
        ensures { IsMadeOf before part result }
    {
        Ok(Monitor::Before(false, Box::new(alloc, part)?))
    }

    /// That the part held at some point that is near enough, this one among them.
    pub fn once(alloc: Global, bound: Option<u64>, part: Monitor) -> Result<Monitor, AllocError>
        ensures { IsMadeOf (once bound) part result }
    {
        Ok(Monitor::Once(Window::new(bound), Box::new(alloc, part)?))
    }

    /// That the part held at all points that are near enough, this one among them.
    pub fn always(alloc: Global, bound: Option<u64>, part: Monitor) -> Result<Monitor, AllocError>
        ensures { IsMadeOf (always bound) part result }
    {
        Ok(Monitor::Always(Window::new(bound), Box::new(alloc, part)?))
    }

    /// That `met` held at some point that is near enough, this one among them, and `kept` at all
    /// points behind that one.
    pub fn since(
        alloc: Global,
        bound: Option<u64>,
        kept: Monitor,
        met: Monitor,
    ) -> Result<Monitor, AllocError>
        ensures { IsMadeOfBoth (since bound) kept met result }
    {
        let met = Box::new(alloc, met)?;
        let kept = Box::new(alloc, kept)?;
        Ok(Monitor::Since(Window::new(bound), kept, met))
    }
}
