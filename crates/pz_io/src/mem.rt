// Files in memory.
ghost use Rattle.std.specs.Prelude.{◌≡◌, ◌≤◌, ◌<◌, ◌+◌, ◌++◌, [], ◌∷◌, true, false, length, take, min};
ghost use Rattle.pz_io.specs.Outside.{new_files, raised};
ghost use Rattle.pz_io.specs.Outcomes.{IfBytes, OnEnd, is_end, is_read_failed, bytes_got};
ghost use Rattle.pz_io.specs.Entries.{entries_of, rest_of};
ghost use Rattle.pz_io.specs.devices.Places.{IsPlaceOf};

use crate::names::Names;
use crate::outside::{Files, Got, Opened};

/// Files in memory. Their count of faults is always 0, so no `read` of theirs fails, and an `open`
/// fails exactly where they lack the name. No call takes memory.
#[derive(Drop)]
pub struct MemFiles {
    entries: Vec<(String, Vec<u8>)>,
    current: Option<usize>,
    handed: usize,
    opens: u64,
    names: Names,
    ended: bool,
    failed: bool,
}

impl MemFiles {
    ghost use Rattle.pz_io.specs.Mem.{mem_state};

    /// Files with these names and bytes, none of them open. Where two entries have one name, the
    /// first counts.
    pub fn new(entries: Vec<(String, Vec<u8>)>) -> MemFiles
        ensures { mem_state result ≡ new_files true (entries_of entries.items) }
    {
        MemFiles {
            entries,
            current: None,
            handed: 0,
            opens: 0,
            names: Names::none(),
            ended: false,
            failed: false,
        }
    }

    // An `open` that fails: it is counted, and no file is open after it.
    pub(crate) fn refuse_open(&mut self, name: &str)
        ensures held { (mem_state self.new).held ≡ (mem_state self.old).held }
        ensures rest { (mem_state self.new).rest ≡ [] }
        ensures opens { (mem_state self.new).opens ≡ raised (mem_state self.old).opens }
        ensures opened { (mem_state self.new).opened ≡
            (mem_state self.old).opened ++ (name.now ∷ []) }
        ensures handed { (mem_state self.new).handed ≡ 0 }
        ensures ended { (mem_state self.new).ended ≡ false }
        ensures last { (mem_state self.new).failed ≡ true }
    {
        self.current = None;
        self.opens = self.opens.saturating_add(1);
        self.names = self.names.with(name);
        self.handed = 0;
        self.ended = false;
        self.failed = true;
    }

    // A `read` that fails: all stays, but for what the last call was.
    pub(crate) fn refuse_read(&mut self)
        ensures { self.new ≡ record self.old { ended = false; failed = true } }
    {
        self.ended = false;
        self.failed = true;
    }
}

// The place of the first entry that has this name.
fn find_entry(entries: &[(String, Vec<u8>)], name: &str) -> Option<usize>
    ensures { IsPlaceOf entries.now name.now result }
{
    for (i, entry) in entries.iter().enumerate() {
        if entry.0.as_str() == name {
            return Some(i);
        }
    }
    None
}

// What is left of the entry at `current` after its first `handed` bytes.
fn rest(entries: &[(String, Vec<u8>)], current: Option<usize>, handed: usize) -> &[u8]
    ensures { result.now ≡ rest_of entries.now current handed }
{
    let Some(i) = current else {
        return &[];
    };
    let Some(entry) = entries.get(i) else {
        return &[];
    };
    if handed <= entry.1.len() {
        &entry.1[handed..]
    } else {
        &[]
    }
}

impl Files for MemFiles {
    ghost use Rattle.pz_io.specs.Mem.{mem_state};

    ghost state = { mem_state };

    fn open(&mut self, name: &str) -> Opened {
        self.current = find_entry(&self.entries, name);
        self.opens = self.opens.saturating_add(1);
        self.names = self.names.with(name);
        self.handed = 0;
        self.ended = false;
        self.failed = self.current.is_none();
        match self.current {
            Some(_) => Opened::Ready,
            None => Opened::Failed,
        }
    }

    /// Hands out as many bytes as are left and fit.
    fn read(&mut self, buf: &mut [u8]) -> Got
        requires { 0 < length buf.old }
        ensures held { (mem_state self.new).held ≡ (mem_state self.old).held }
        ensures opens { (mem_state self.new).opens ≡ (mem_state self.old).opens }
        ensures opened { (mem_state self.new).opened ≡ (mem_state self.old).opened }
        ensures handed { (mem_state self.new).handed ≡
            (mem_state self.old).handed + bytes_got result }
        ensures ended { (mem_state self.new).ended ≡ is_end result }
        ensures last { (mem_state self.new).failed ≡ false }
        ensures count { IfBytes result
            (λ n. (1 ≤ n) × (n ≡ min (length (mem_state self.old).rest) (length buf.new))) }
        ensures bytes { IfBytes result
            (λ n. (mem_state self.old).rest ≡ take n buf.new ++ (mem_state self.new).rest) }
        ensures end { OnEnd result
            (((mem_state self.old).rest ≡ []) × ((mem_state self.new).rest ≡ [])) }
        ensures never_fails { is_read_failed result ≡ false }
    {
        self.failed = false;
        let left = rest(&self.entries, self.current, self.handed);
        if left.is_empty() {
            self.ended = true;
            return Got::End;
        }
        let n = left.len().min(buf.len());
        buf[..n].copy_from_slice(&left[..n]);
        self.handed += n;
        self.ended = false;
        Got::Bytes(n)
    }
}
