// Names that clauses alone read.
ghost use Rattle.std.specs.Prelude.{◌≡◌, ◌++◌, ◌∷◌, [], ℕ, List};
ghost use Rattle.std.specs.Coded.{coded_list, coded_ℕ};
ghost use base.Fml.{ftrue};

use std::marker::Model;

/// Names in their order, for clauses alone: they take no memory, and no code can read them.
///
/// An implementation of [`Files`](crate::Files) keeps with them which names were opened. That binds
/// code which is generic over the trait, and says nothing of the implementation itself.
pub struct Names {
    nothing: (),
    pub ghost list: { List (List ℕ) } by { coded_list (coded_list coded_ℕ) },
}

impl Model for Names {
    ghost also_owns = { λ _. ftrue };
}

impl Names {
    /// No name.
    pub fn none() -> Names
        ensures { result.list ≡ [] }
    {
        Names { nothing: () }
    }

    /// These names, and then this one.
    pub fn with(&self, name: &str) -> Names
        ensures { result.list ≡ self.now.list ++ (name.now ∷ []) }
    {
        let _ = name;
        Names { nothing: () }
    }
}

impl Drop for Names {
    fn drop(self) {
        let Names { nothing: _ } = self;
    }
}
