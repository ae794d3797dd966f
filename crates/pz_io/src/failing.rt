// Files in memory that fail at given calls.
ghost use Rattle.std.specs.Prelude.{◌≡◌, ◌⊎◌, ◌≤◌, ◌<◌, ◌+◌, ◌++◌, [], ◌∷◌, true, false, None, Some, length, take, min};
ghost use Rattle.pz_io.specs.Outside.{lookup, raised, raised_if};
ghost use Rattle.pz_io.specs.Outcomes.{OnReady, OnOpenFailed, is_open_failed, IfBytes, OnEnd, OnReadFailed, is_end, is_read_failed, bytes_got};

use crate::mem::MemFiles;
use crate::outside::{Files, Got, Opened};

/// Files in memory of which given calls fail, for tests of what a program does then.
///
/// The calls of `open` and `read` are numbered together from 1. The count of faults rises at
/// exactly the calls whose numbers are listed.
#[derive(Drop)]
pub struct FailingFiles {
    inner: MemFiles,
    calls: Vec<u64>,
    made: u64,
    faults: u64,
}

impl FailingFiles {
    ghost use Rattle.pz_io.specs.Mem.{mem_state};
    ghost use Rattle.pz_io.specs.Failing.{failing_state, failing_made, failing_calls, next_call_fails};

    /// The files of `inner`, failing at the listed calls.
    pub fn new(inner: MemFiles, calls: Vec<u64>) -> FailingFiles
        ensures state { failing_state result ≡ mem_state inner }
        ensures made { failing_made result ≡ 0 }
        ensures calls { failing_calls result ≡ calls.items }
    {
        FailingFiles {
            inner,
            calls,
            made: 0,
            faults: 0,
        }
    }

    // Counts a call and says whether it is to fail, which is counted as a fault.
    fn count_call(&mut self) -> bool
        ensures fails { result ≡ next_call_fails self.old }
        ensures inner { self.new.inner ≡ self.old.inner }
        ensures calls { self.new.calls ≡ self.old.calls }
        ensures made { self.new.made ≡ raised self.old.made }
        ensures faults { self.old.faults ≤ self.new.faults }
        ensures counted { self.new.faults ≡ raised_if result self.old.faults }
    {
        self.made = self.made.saturating_add(1);
        let fails = self.calls.contains(&self.made);
        if fails {
            self.faults = self.faults.saturating_add(1);
        }
        fails
    }
}

impl Files for FailingFiles {
    ghost use Rattle.pz_io.specs.Failing.{failing_state, failing_made, failing_calls, next_call_fails};

    ghost state = { failing_state };

    /// A call that is not listed fails only where the files lack the name.
    fn open(&mut self, name: &str) -> Opened
        ensures held { (failing_state self.new).held ≡ (failing_state self.old).held }
        ensures opens { (failing_state self.new).opens ≡ raised (failing_state self.old).opens }
        ensures opened { (failing_state self.new).opened ≡
            (failing_state self.old).opened ++ (name.now ∷ []) }
        ensures handed { (failing_state self.new).handed ≡ 0 }
        ensures ended { (failing_state self.new).ended ≡ false }
        ensures last { (failing_state self.new).failed ≡ is_open_failed result }
        ensures faults { (failing_state self.old).faults ≤ (failing_state self.new).faults }
        ensures ready { OnReady result
            (lookup (failing_state self.old).held name.now ≡ Some (failing_state self.new).rest) }
        ensures closed { OnOpenFailed result ((failing_state self.new).rest ≡ []) }

        // which calls fail
        ensures made { failing_made self.new ≡ raised (failing_made self.old) }
        ensures calls { failing_calls self.new ≡ failing_calls self.old }
        ensures counted { (failing_state self.new).faults ≡
            raised_if (next_call_fails self.old) (failing_state self.old).faults }
        ensures listed { next_call_fails self.old ≡ true → result ≡ Opened.Failed }
        ensures unlisted { next_call_fails self.old ≡ false →
            OnOpenFailed result (lookup (failing_state self.old).held name.now ≡ None) }
    {
        if self.count_call() {
            self.inner.refuse_open(name);
            return Opened::Failed;
        }
        self.inner.open(name)
    }

    /// Exactly the listed calls fail. Another hands out as many bytes as are left and fit.
    fn read(&mut self, buf: &mut [u8]) -> Got
        requires { 0 < length buf.old }
        ensures held { (failing_state self.new).held ≡ (failing_state self.old).held }
        ensures opens { (failing_state self.new).opens ≡ (failing_state self.old).opens }
        ensures opened { (failing_state self.new).opened ≡ (failing_state self.old).opened }
        ensures handed { (failing_state self.new).handed ≡
            (failing_state self.old).handed + bytes_got result }
        ensures ended { (failing_state self.new).ended ≡ is_end result }
        ensures last { (failing_state self.new).failed ≡ is_read_failed result }
        ensures faults { (failing_state self.old).faults ≤ (failing_state self.new).faults }
        ensures count { IfBytes result
            (λ n. (1 ≤ n) × (n ≡ min (length (failing_state self.old).rest) (length buf.new))) }
        ensures bytes { IfBytes result
            (λ n. (failing_state self.old).rest ≡ take n buf.new ++ (failing_state self.new).rest) }
        ensures end { OnEnd result
            (((failing_state self.old).rest ≡ []) × ((failing_state self.new).rest ≡ [])) }
        ensures failed_rest { OnReadFailed result
            ((failing_state self.new).rest ≡ (failing_state self.old).rest) }

        // which calls fail
        ensures made { failing_made self.new ≡ raised (failing_made self.old) }
        ensures calls { failing_calls self.new ≡ failing_calls self.old }
        ensures counted { (failing_state self.new).faults ≡
            raised_if (next_call_fails self.old) (failing_state self.old).faults }
        ensures fails { is_read_failed result ≡ next_call_fails self.old }
    {
        if self.count_call() {
            self.inner.refuse_read();
            return Got::Failed;
        }
        self.inner.read(buf)
    }
}
