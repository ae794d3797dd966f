ghost use Rattle.std.specs.Prelude.{◌≡◌, ◌<◌, ◌==◌, ◌++◌, ◌∷◌, [], ℕ, if◌then◌else◌, IfOk, OnOk};
ghost use Rattle.pz_check_instances.specs.devices.ClassRows.{row, row_count};

use std::alloc::{AllocError, Global};

/// A row of things for each class, by the numbers of the classes.
#[derive(Drop)]
pub(crate) struct ByClass<T> {
    rows: Vec<Vec<T>>,
}

impl<T: Copy> ByClass<T> {
    /// An empty row for each of so many classes. The only error is want of memory.
    pub(crate) fn new(alloc: Global, count: usize) -> Result<ByClass<T>, AllocError>
        ensures counted { IfOk result (λ things. row_count things ≡ count) }
        ensures empty { IfOk result (λ things. (k : ℕ) → row things k ≡ []) }
    {
        let mut rows = Vec::new(alloc);
        for _row in 0..count {
            rows.push(Vec::new(alloc))?;
        }
        Ok(ByClass { rows })
    }

    /// Puts a thing at the end of a class's row. The only error is want of memory.
    pub(crate) fn add(&mut self, class: u32, thing: T) -> Result<(), AllocError>
        requires { class < row_count self.old }
        ensures counted { OnOk result (row_count self.new ≡ row_count self.old) }
        ensures added { OnOk result ((k : ℕ) → row self.new k ≡ row self.old k ++
            (if class == k then thing ∷ [] else [])) }
    {
        self.rows[class as usize].push(thing)?;
        Ok(())
    }

    /// The row of a class.
    pub(crate) fn of(&self, class: u32) -> &[T]
        requires { class < row_count self.now }
        ensures { result.now ≡ row self.now class }
    {
        self.rows[class as usize].as_slice()
    }
}
