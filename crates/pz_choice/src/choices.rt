ghost use Rattle.std.specs.Prelude.{◌≡◌, ◌≤◌, ◌+◌, length, min, slice_get};

use pz_items::Items;

/// Entries that are taken one after another.
#[derive(Debug, Drop)]
pub struct Choices {
    /// The entries.
    pub list: Items<u64>,
    /// The place from 0 of the next one.
    pub next: u64,
    ghost within: { next ≤ length list },
}

impl Choices {
    /// The next entry, if one is left.
    pub fn ahead(&self) -> Option<u64>
        ensures { result ≡ slice_get self.now.list self.now.next }
    {
        self.list.as_slice().get(self.next as usize).copied()
    }

    /// Takes the next entry, if one is left.
    pub fn take(&mut self) -> Option<u64>
        ensures entry { result ≡ slice_get self.old.list self.old.next }
        ensures list { self.new.list ≡ self.old.list }
        ensures next { self.new.next ≡ min (self.old.next + 1) (length self.old.list) }
    {
        let entry = self.ahead();
        if self.next < self.list.len() as u64 {
            self.next += 1;
        }
        entry
    }
}
