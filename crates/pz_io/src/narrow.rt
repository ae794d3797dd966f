// Files and a sink in memory that hand out and take little at a time.
ghost use Rattle.std.specs.Prelude.{◌≡◌, ◌⊎◌, ◌≤◌, ◌<◌, ◌+◌, ◌++◌, [], ◌∷◌, true, false, None, Some, length, take, min};
ghost use Rattle.pz_io.specs.Outside.{lookup, raised, raised_if};
ghost use Rattle.pz_io.specs.Outcomes.{OnReady, OnOpenFailed, is_open_failed, IfBytes, OnEnd, OnReadFailed, is_end, is_read_failed, bytes_got, IfTook, OnWriteFailed, is_write_failed};

use crate::failing::FailingFiles;
use crate::outside::{Files, Got, Opened, Put, Sink};
use crate::roomy::RoomySink;

/// Files in memory that hand out at most so many bytes at a read, for tests of what a program does
/// with a text that comes in small parts.
///
/// They hold, count and fail as the files that they are made of.
#[derive(Drop)]
pub struct NarrowFiles {
    inner: FailingFiles,
    most: usize,
    ghost some: { 1 ≤ most },
}

impl NarrowFiles {
    ghost use Rattle.pz_io.specs.Failing.{failing_state, failing_made, failing_calls};
    ghost use Rattle.pz_io.specs.Narrow.{narrow_files_state, narrow_files_most, narrow_files_made, narrow_files_calls};

    /// The files of `inner`, with at most `most` bytes at a read.
    pub fn new(inner: FailingFiles, most: usize) -> NarrowFiles
        requires { 1 ≤ most }
        ensures state { narrow_files_state result ≡ failing_state inner }
        ensures most { narrow_files_most result ≡ most }
        ensures made { narrow_files_made result ≡ failing_made inner }
        ensures calls { narrow_files_calls result ≡ failing_calls inner }
    {
        NarrowFiles { inner, most }
    }
}

impl Files for NarrowFiles {
    ghost use Rattle.pz_io.specs.Narrow.{narrow_files_state, narrow_files_most, narrow_files_made, narrow_files_calls, next_narrow_call_fails};

    ghost state = { narrow_files_state };

    /// A call that is not listed fails only where the files lack the name.
    fn open(&mut self, name: &str) -> Opened
        ensures held { (narrow_files_state self.new).held ≡ (narrow_files_state self.old).held }
        ensures opens { (narrow_files_state self.new).opens ≡
            raised (narrow_files_state self.old).opens }
        ensures opened { (narrow_files_state self.new).opened ≡
            (narrow_files_state self.old).opened ++ (name.now ∷ []) }
        ensures handed { (narrow_files_state self.new).handed ≡ 0 }
        ensures ended { (narrow_files_state self.new).ended ≡ false }
        ensures last { (narrow_files_state self.new).failed ≡ is_open_failed result }
        ensures faults { (narrow_files_state self.old).faults ≤
            (narrow_files_state self.new).faults }
        ensures ready { OnReady result (lookup (narrow_files_state self.old).held name.now ≡
            Some (narrow_files_state self.new).rest) }
        ensures closed { OnOpenFailed result ((narrow_files_state self.new).rest ≡ []) }

        // how narrow they are, and which calls fail
        ensures most { narrow_files_most self.new ≡ narrow_files_most self.old }
        ensures made { narrow_files_made self.new ≡ raised (narrow_files_made self.old) }
        ensures calls { narrow_files_calls self.new ≡ narrow_files_calls self.old }
        ensures counted { (narrow_files_state self.new).faults ≡
            raised_if (next_narrow_call_fails self.old) (narrow_files_state self.old).faults }
        ensures listed { next_narrow_call_fails self.old ≡ true → result ≡ Opened.Failed }
        ensures unlisted { next_narrow_call_fails self.old ≡ false → OnOpenFailed result
            (lookup (narrow_files_state self.old).held name.now ≡ None) }
    {
        self.inner.open(name)
    }

    /// Exactly the listed calls fail. Another hands out as many bytes as are left and fit, and at
    /// most as many as these files do at a read.
    fn read(&mut self, buf: &mut [u8]) -> Got
        requires { 0 < length buf.old }
        ensures held { (narrow_files_state self.new).held ≡ (narrow_files_state self.old).held }
        ensures opens { (narrow_files_state self.new).opens ≡ (narrow_files_state self.old).opens }
        ensures opened { (narrow_files_state self.new).opened ≡
            (narrow_files_state self.old).opened }
        ensures handed { (narrow_files_state self.new).handed ≡
            (narrow_files_state self.old).handed + bytes_got result }
        ensures ended { (narrow_files_state self.new).ended ≡ is_end result }
        ensures last { (narrow_files_state self.new).failed ≡ is_read_failed result }
        ensures faults { (narrow_files_state self.old).faults ≤
            (narrow_files_state self.new).faults }
        ensures count { IfBytes result (λ n. (1 ≤ n) × (n ≡
            min (length (narrow_files_state self.old).rest)
            (min (length buf.new) (narrow_files_most self.old)))) }
        ensures bytes { IfBytes result (λ n. (narrow_files_state self.old).rest ≡
            take n buf.new ++ (narrow_files_state self.new).rest) }
        ensures end { OnEnd result (((narrow_files_state self.old).rest ≡ [])
            × ((narrow_files_state self.new).rest ≡ [])) }
        ensures failed_rest { OnReadFailed result
            ((narrow_files_state self.new).rest ≡ (narrow_files_state self.old).rest) }

        // how narrow they are, and which calls fail
        ensures most { narrow_files_most self.new ≡ narrow_files_most self.old }
        ensures made { narrow_files_made self.new ≡ raised (narrow_files_made self.old) }
        ensures calls { narrow_files_calls self.new ≡ narrow_files_calls self.old }
        ensures counted { (narrow_files_state self.new).faults ≡
            raised_if (next_narrow_call_fails self.old) (narrow_files_state self.old).faults }
        ensures fails { is_read_failed result ≡ next_narrow_call_fails self.old }
    {
        let n = buf.len().min(self.most);
        self.inner.read(&mut buf[..n])
    }
}

/// A sink in memory that takes at most so many bytes at a write.
///
/// It takes, counts and fails as the sink that it is made of. A `write` takes no memory.
#[derive(Drop)]
pub struct NarrowSink {
    inner: RoomySink,
    most: usize,
    ghost some: { 1 ≤ most },
}

impl NarrowSink {
    ghost use Rattle.pz_io.specs.Roomy.{roomy_state, roomy_room, roomy_made, roomy_calls};
    ghost use Rattle.pz_io.specs.Narrow.{narrow_sink_state, narrow_sink_most, narrow_sink_room, narrow_sink_made, narrow_sink_calls};

    /// The sink `inner`, with at most `most` bytes at a write.
    pub fn new(inner: RoomySink, most: usize) -> NarrowSink
        requires { 1 ≤ most }
        ensures state { narrow_sink_state result ≡ roomy_state inner }
        ensures most { narrow_sink_most result ≡ most }
        ensures room { narrow_sink_room result ≡ roomy_room inner }
        ensures made { narrow_sink_made result ≡ roomy_made inner }
        ensures calls { narrow_sink_calls result ≡ roomy_calls inner }
    {
        NarrowSink { inner, most }
    }

    /// What was taken so far.
    pub fn bytes(&self) -> &[u8]
        ensures { result.now ≡ (narrow_sink_state self.now).taken }
    {
        self.inner.bytes()
    }
}

impl Sink for NarrowSink {
    ghost use Rattle.pz_io.specs.Narrow.{narrow_sink_state, narrow_sink_most, narrow_sink_room, narrow_sink_made, narrow_sink_calls, next_narrow_write_fails};

    ghost state = { narrow_sink_state };

    /// A write that does not fail takes as much of the piece as there is room, and at most as many
    /// bytes as this sink does at a write.
    fn write(&mut self, piece: &[u8]) -> Put
        requires { 0 < length piece.now }
        ensures last { (narrow_sink_state self.new).failed ≡ is_write_failed result }
        ensures faults { (narrow_sink_state self.old).faults ≤
            (narrow_sink_state self.new).faults }
        ensures count { IfTook result (λ n. (1 ≤ n) × (n ≡
            min (min (length piece.now) (narrow_sink_most self.old))
            (narrow_sink_room self.old))) }
        ensures bytes { IfTook result (λ n. (narrow_sink_state self.new).taken ≡
            (narrow_sink_state self.old).taken ++ take n piece.now) }
        ensures room { IfTook result
            (λ n. narrow_sink_room self.new + n ≡ narrow_sink_room self.old) }
        ensures nothing { OnWriteFailed result
            ((narrow_sink_state self.new).taken ≡ (narrow_sink_state self.old).taken) }
        ensures same_room { OnWriteFailed result
            (narrow_sink_room self.new ≡ narrow_sink_room self.old) }

        // how narrow it is, and which writes fail
        ensures most { narrow_sink_most self.new ≡ narrow_sink_most self.old }
        ensures made { narrow_sink_made self.new ≡ raised (narrow_sink_made self.old) }
        ensures calls { narrow_sink_calls self.new ≡ narrow_sink_calls self.old }
        ensures counted { (narrow_sink_state self.new).faults ≡
            raised_if (next_narrow_write_fails self.old) (narrow_sink_state self.old).faults }
        ensures fails { is_write_failed result ≡ next_narrow_write_fails self.old }
    {
        let n = piece.len().min(self.most);
        self.inner.write(&piece[..n])
    }
}
