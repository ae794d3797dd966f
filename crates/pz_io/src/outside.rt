// Files and a sink, as a program sees them.
ghost use Rattle.std.specs.Prelude.{◌≡◌, ◌⊎◌, ◌≤◌, ◌<◌, ◌+◌, ◌++◌, [], ◌∷◌, true, false, Some, length, take};
ghost use Rattle.pz_io.specs.Outside.{FilesState, SinkState, lookup, raised, raised_if, LacksName};
ghost use Rattle.pz_io.specs.Outcomes.{OnReady, OnOpenFailed, is_open_failed, IfBytes, OnEnd, OnReadFailed, is_end, is_read_failed, bytes_got, IfTook, OnWriteFailed, is_write_failed};

/// The answer of an `open`.
#[derive(Clone, Copy, Debug, PartialEq, Eq)]
pub enum Opened {
    /// The file is open, and nothing of it was handed out yet.
    Ready,
    /// No file is open.
    Failed,
}

/// The answer of a `read`.
#[derive(Clone, Copy, Debug, PartialEq, Eq)]
pub enum Got {
    /// So many bytes were handed out, at the front of the buffer.
    Bytes(usize),
    /// Nothing is left.
    End,
    /// Nothing was handed out.
    Failed,
}

/// The answer of a `write`.
#[derive(Clone, Copy, Debug, PartialEq, Eq)]
pub enum Put {
    /// So many bytes were taken, from the front of the piece.
    Took(usize),
    /// Nothing was taken.
    Failed,
}

/// Named files, of which at most one is open.
///
/// A count is kept in a u64. At 2^64 - 1 it stands still, and is taken as having risen.
pub trait Files {
    /// What they are at a moment: whether they tell what they hold, what that is and what is left
    /// of the open file, their counts, and which names were opened.
    ghost state: { Self → FilesState };

    /// Closes what was open, and opens the named file from its start.
    ///
    /// `Ready` comes, where the files tell, only for a name that they have. `Failed` comes only
    /// where the count of faults is raised in this call, by one, or where the files tell and lack
    /// the name. The count rises at no other call.
    fn open(&mut self, name: &str) -> Opened
        ensures told { (state self.new).told ≡ (state self.old).told }
        ensures held { (state self.new).held ≡ (state self.old).held }
        ensures opens { (state self.new).opens ≡ raised (state self.old).opens }
        ensures opened { (state self.new).opened ≡ (state self.old).opened ++ (name.now ∷ []) }
        ensures handed { (state self.new).handed ≡ 0 }
        ensures ended { (state self.new).ended ≡ false }
        ensures last { (state self.new).failed ≡ is_open_failed result }
        ensures faults { (state self.old).faults ≤ (state self.new).faults }
        ensures counted { OnReady result ((state self.new).faults ≡ (state self.old).faults) }
        ensures ready { OnReady result ((state self.old).told ≡ true →
            lookup (state self.old).held name.now ≡ Some (state self.new).rest) }
        ensures failed { OnOpenFailed result
            (((state self.new).faults ≡ raised (state self.old).faults)
            ⊎ (((state self.new).faults ≡ (state self.old).faults)
            × LacksName (state self.old) name.now)) }
        ensures closed { OnOpenFailed result
            ((state self.old).told ≡ true → (state self.new).rest ≡ []) };

    /// Hands out the next bytes of the open file, at least one and at most as many as fit.
    ///
    /// `End` comes, where the files tell, only where nothing is left. `Failed` comes exactly where
    /// the count of faults is raised in this call, by one, and takes nothing.
    fn read(&mut self, buf: &mut [u8]) -> Got
        requires { 0 < length buf.old }
        ensures told { (state self.new).told ≡ (state self.old).told }
        ensures held { (state self.new).held ≡ (state self.old).held }
        ensures opens { (state self.new).opens ≡ (state self.old).opens }
        ensures opened { (state self.new).opened ≡ (state self.old).opened }
        ensures handed { (state self.new).handed ≡ (state self.old).handed + bytes_got result }
        ensures ended { (state self.new).ended ≡ is_end result }
        ensures last { (state self.new).failed ≡ is_read_failed result }
        ensures faults { (state self.old).faults ≤ (state self.new).faults }
        ensures counted { (state self.new).faults ≡
            raised_if (is_read_failed result) (state self.old).faults }
        ensures count { IfBytes result (λ n. (1 ≤ n) × (n ≤ length buf.new)) }
        ensures bytes { IfBytes result (λ n. (state self.old).told ≡ true →
            (state self.old).rest ≡ take n buf.new ++ (state self.new).rest) }
        ensures end { OnEnd result ((state self.old).told ≡ true →
            ((state self.old).rest ≡ []) × ((state self.new).rest ≡ [])) }
        ensures failed_rest { OnReadFailed result
            ((state self.old).told ≡ true → (state self.new).rest ≡ (state self.old).rest) };
}

/// What takes bytes, one after the other.
pub trait Sink {
    /// What it is at a moment: whether it tells what it took, what that is, its count of faults,
    /// which is kept as that of [`Files`], and whether the last call was one that failed.
    ghost state: { Self → SinkState };

    /// Takes the first bytes of the piece, at least one.
    ///
    /// `Failed` comes exactly where the count of faults is raised in this call, by one, and takes
    /// nothing.
    fn write(&mut self, piece: &[u8]) -> Put
        requires { 0 < length piece.now }
        ensures told { (state self.new).told ≡ (state self.old).told }
        ensures last { (state self.new).failed ≡ is_write_failed result }
        ensures faults { (state self.old).faults ≤ (state self.new).faults }
        ensures counted { (state self.new).faults ≡
            raised_if (is_write_failed result) (state self.old).faults }
        ensures count { IfTook result (λ n. (1 ≤ n) × (n ≤ length piece.now)) }
        ensures bytes { IfTook result (λ n. (state self.old).told ≡ true →
            (state self.new).taken ≡ (state self.old).taken ++ take n piece.now) }
        ensures nothing { OnWriteFailed result
            ((state self.old).told ≡ true → (state self.new).taken ≡ (state self.old).taken) };
}
