ghost use Rattle.std.specs.Prelude.{◌≡◌, [], ◌∷◌, ◌++◌, ℕ, List, IfOk, OnOk, OnErr};

use smallvec::SmallVec;
use std::alloc::{AllocError, Global};
use std::marker::Model;

/// A place in a term: the numbers of the children, from 0, on the way from the root to a part.
/// Up to seven numbers take no memory beyond the place itself. Contracts see the list of the numbers.
pub struct Place {
    steps: SmallVec<usize, 7>,
}

// Written out, so that it is proved once, here, and not in each crate that drops one.
impl Drop for Place {
    fn drop(self) {
        let Place { steps } = self;
        std::mem::drop(steps);
    }
}

impl Model for Place {
    ghost use Rattle.std.specs.Prelude.{List, ℕ};

    ghost Value = { List ℕ };

    ghost view = { λ p. p.steps.items };
}

impl Place {
    /// The place of the root. Takes no memory.
    pub fn root(alloc: Global) -> Place
        ensures { result ≡ [] }
    {
        Place {
            steps: SmallVec::new(alloc),
        }
    }

    /// The numbers of the children, from the root on.
    pub fn as_slice(&self) -> &[usize]
        ensures { result.now ≡ self.now }
    {
        self.steps.as_slice()
    }

    /// An equal place. The only error is want of memory.
    pub fn copy(&self) -> Result<Place, AllocError>
        ensures { IfOk result (λ copy. copy ≡ self.now) }
    {
        let steps = SmallVec::from_slice(*self.steps.allocator(), self.steps.as_slice())?;
        Ok(Place { steps })
    }

    /// Goes on to a child. The only error is want of memory, and then the place stays.
    pub fn enter(&mut self, child: usize) -> Result<(), AllocError>
        ensures ok { OnOk result (self.new ≡ self.old ++ child ∷ []) }
        ensures err { OnErr result (self.new ≡ self.old) }
    {
        self.steps.push(child)?;
        Ok(())
    }

    /// Goes back from a child. Takes no memory.
    pub fn leave(&mut self)
        ensures { (place : List ℕ) (child : ℕ) → self.old ≡ place ++ child ∷ [] → self.new ≡ place }
    {
        let _child = self.steps.pop();
    }
}
