// Notes for keys, and what taking them back needs.

ghost use Rattle.std.specs.Prelude.{◌≡◌, ◌+◌, ◌<◌, List, [], ◌∷◌, OnOk, vec_len};
ghost use Rattle.pz_check_scopes.specs.Scopes.{Note, value_in, outermost};
ghost use Rattle.pz_check_scopes.specs.devices.Holding.{Keeps, Holds};

use indexmap::IndexMap;
use std::alloc::{AllocError, Global};
use std::hash::Hash;

/// A key for which something was noted, and what the notes before that say of it.
#[derive(Clone, Copy, Debug)]
struct Change<K, V> {
    key: K,
    before: Option<V>,
}

/// What is noted for keys in nested scopes. The innermost note for a key counts, and leaving a scope
/// takes back what was noted in it. Each note is made once and taken back once.
#[derive(Drop)]
pub struct Nested<K: Hash + Eq, V> {
    // what counts for each key that was ever noted: None where all its notes were taken back
    notes: IndexMap<K, Option<V>>,
    // what each note changed, the latest last
    changes: Vec<Change<K, V>>,
    // how many changes there were when each scope began, the innermost scope last
    starts: Vec<usize>,
}

impl<K: Hash + Eq + Copy, V: Copy> Nested<K, V> {
    /// No scope, and nothing noted. Takes no memory.
    pub fn new(alloc: Global) -> Self
        ensures none { Holds K.eq [] result }
    {
        Nested {
            notes: IndexMap::new(alloc),
            changes: Vec::new(alloc),
            starts: Vec::new(alloc),
        }
    }

    /// Begins a scope inside the others. The only error is want of memory.
    pub fn open(&mut self) -> Result<(), AllocError>
        ensures opened { (scopes : List (List (Note K V))) → Holds K.eq scopes self.old →
            OnOk result (Holds K.eq ([] ∷ scopes) self.new) }
    {
        self.starts.push(self.changes.len())?;
        Ok(())
    }

    /// Takes back the last note, if there is one.
    fn take_back(&mut self)
        ensures back { (last : Note K V) (notes : List (Note K V)) →
            Keeps K.eq (last ∷ notes) self.old → Keeps K.eq notes self.new }
        ensures shorter { 0 < vec_len self.old.changes →
            vec_len self.new.changes + 1 ≡ vec_len self.old.changes }
        ensures starts { self.new.starts ≡ self.old.starts }
    {
        let Some(change) = self.changes.pop() else {
            return;
        };
        if let Some(value) = self.notes.get_mut(&change.key) {
            *value = change.before;
        }
    }

    /// Takes back all notes but the first so many.
    fn take_back_to(&mut self, count: usize)
        ensures back { (notes : List (Note K V)) → Keeps K.eq notes self.old →
            Keeps K.eq (outermost count notes) self.new }
        ensures starts { self.new.starts ≡ self.old.starts }
    {
        while self.changes.len() > count {
            self.take_back();
        }
    }

    /// Leaves all scopes but the outermost so many, and takes back what was noted in those that it
    /// leaves. Where no more than so many are open, all of them stay.
    pub fn close_to(&mut self, depth: usize)
        ensures closed { (scopes : List (List (Note K V))) → Holds K.eq scopes self.old →
            Holds K.eq (outermost depth scopes) self.new }
    {
        if depth < self.starts.len() {
            let start = self.starts[depth];
            self.starts.truncate(depth);
            self.take_back_to(start);
        }
    }

    /// Notes a value for a key, in the innermost scope; some scope is open. The only error is want of
    /// memory, and then what is noted is not to be asked any more.
    pub fn note(&mut self, key: K, value: V) -> Result<(), AllocError>
        ensures noted { (scope : List (Note K V)) (outer : List (List (Note K V))) →
            Holds K.eq (scope ∷ outer) self.old → OnOk result
            (Holds K.eq ((record { key = key; value = value } ∷ scope) ∷ outer) self.new) }
    {
        let before = self.get(key);
        self.changes.push(Change { key, before })?;
        self.notes.insert(key, Some(value))?;
        Ok(())
    }

    /// What was noted last for the key, in the innermost of the open scopes where something was.
    pub fn get(&self, key: K) -> Option<V>
        ensures value { (scopes : List (List (Note K V))) → Holds K.eq scopes self.now →
            result ≡ value_in K.eq scopes key }
    {
        match self.notes.get(&key) {
            Some(value) => *value,
            None => None,
        }
    }
}
