// A whole file in, a whole piece out.
ghost use Rattle.std.specs.Prelude.{◌≡◌, ◌⊎◌, ◌≤◌, ◌<◌, ◌++◌, [], ◌∷◌, true, false, Some, length, take, is_ok, IfOk, OnOk, IfErr, OnErr, IsErrOf};
ghost use Rattle.pz_io.specs.Outside.{lookup, raised, LacksName, FilesFailedLast, SinkFailedLast, Exceeds};
ghost use Rattle.pz_io.specs.Outcomes.{is_fault, sent_of};

use crate::outside::{Files, Got, Opened, Put, Sink};
use std::alloc::{AllocError, Global};

/// Why [`read_all`] gave no bytes.
#[derive(Clone, Copy, Debug, PartialEq, Eq)]
pub enum ReadError {
    /// Memory was wanting.
    NoMemory,
    /// The files failed, or they lack the name.
    Fault,
    /// More bytes than the limit were handed out.
    TooLong,
}

impl From<AllocError> for ReadError {
    ghost use Rattle.pz_io.specs.declared.whole.ReadError.TheVariants.{NoMemory};

    ghost from_gives = { λ _ error. error ≡ NoMemory };

    fn from(_: AllocError) -> Self {
        ReadError::NoMemory
    }
}

/// Why [`write_all`] wrote no more.
#[derive(Clone, Copy, Debug, PartialEq, Eq)]
pub enum WriteError {
    /// The sink failed after it took the first `sent` bytes.
    Fault { sent: usize },
}

// How many bytes are asked for in one read.
const BUFFER_LEN: usize = 4096;

/// Opens the named file, exactly once, and reads it to its end.
///
/// It returns whatever the files answer: each read but the last takes at least one byte, and more
/// than `limit` bytes end it, so there are at most `limit + 1` reads.
///
/// # Errors
///
/// `Fault` comes only where the count of faults was raised in this call, or where the files tell and
/// lack the name; the call that failed is the last. `TooLong` comes only where more than `limit`
/// bytes were handed out since the `open` of this call, and, where the files tell, only where the
/// named file is longer than `limit`. So where the files tell and their count did not rise, each
/// comes exactly there, but for `NoMemory`.
pub fn read_all<F: Files>(
    alloc: Global,
    files: &mut F,
    name: &str,
    limit: usize,
) -> Result<Vec<u8>, ReadError>
    ensures told { (F.state files.new).told ≡ (F.state files.old).told }
    ensures held { (F.state files.new).held ≡ (F.state files.old).held }
    ensures opens { (F.state files.new).opens ≡ raised (F.state files.old).opens }
    ensures opened { (F.state files.new).opened ≡ (F.state files.old).opened ++ (name.now ∷ []) }
    ensures faults { (F.state files.old).faults ≤ (F.state files.new).faults }

    // what comes at Ok
    ensures content { IfOk result (λ bytes. (F.state files.old).told ≡ true →
        lookup (F.state files.old).held name.now ≡ Some bytes.items) }
    ensures handed { IfOk result (λ bytes. length bytes.items ≡ (F.state files.new).handed) }
    ensures limit { IfOk result (λ bytes. length bytes.items ≤ limit) }
    ensures ended { (F.state files.new).ended ≡ is_ok result }
    ensures rest { OnOk result ((F.state files.old).told ≡ true → (F.state files.new).rest ≡ []) }

    // when each other answer comes; after a call that failed none is made
    ensures last { (F.state files.new).failed ≡ is_fault result }
    ensures counted { is_fault result ≡ false →
        (F.state files.new).faults ≡ (F.state files.old).faults }
    ensures fault { IsErrOf result ReadError.Fault →
        FilesFailedLast (F.state files.old) (F.state files.new)
        ⊎ (((F.state files.new).faults ≡ (F.state files.old).faults)
        × LacksName (F.state files.old) name.now) }
    ensures too_long { IsErrOf result ReadError.TooLong → limit < (F.state files.new).handed }
    ensures longer { IsErrOf result ReadError.TooLong → (F.state files.old).told ≡ true →
        Exceeds (lookup (F.state files.old).held name.now) limit }
{
    match files.open(name) {
        Opened::Ready => read_rest(alloc, files, limit),
        Opened::Failed => Err(ReadError::Fault),
    }
}

// Reads what is left of a file of which nothing was handed out yet.
fn read_rest<F: Files>(alloc: Global, files: &mut F, limit: usize) -> Result<Vec<u8>, ReadError>
    requires handed { (F.state files.old).handed ≡ 0 }
    requires failed { (F.state files.old).failed ≡ false }
    ensures told { (F.state files.new).told ≡ (F.state files.old).told }
    ensures held { (F.state files.new).held ≡ (F.state files.old).held }
    ensures opens { (F.state files.new).opens ≡ (F.state files.old).opens }
    ensures opened { (F.state files.new).opened ≡ (F.state files.old).opened }
    ensures faults { (F.state files.old).faults ≤ (F.state files.new).faults }
    ensures content { IfOk result
        (λ bytes. (F.state files.old).told ≡ true → (F.state files.old).rest ≡ bytes.items) }
    ensures handed { IfOk result (λ bytes. length bytes.items ≡ (F.state files.new).handed) }
    ensures limit { IfOk result (λ bytes. length bytes.items ≤ limit) }
    ensures ended { (F.state files.new).ended ≡ is_ok result }
    ensures rest { OnOk result ((F.state files.old).told ≡ true → (F.state files.new).rest ≡ []) }
    ensures last { (F.state files.new).failed ≡ is_fault result }
    ensures counted { is_fault result ≡ false →
        (F.state files.new).faults ≡ (F.state files.old).faults }
    ensures fault { IsErrOf result ReadError.Fault →
        FilesFailedLast (F.state files.old) (F.state files.new) }
    ensures too_long { IsErrOf result ReadError.TooLong → limit < (F.state files.new).handed }
    ensures longer { IsErrOf result ReadError.TooLong → (F.state files.old).told ≡ true →
        limit < length (F.state files.old).rest }
{
    let mut bytes = Vec::new(alloc);
    let mut buf = [0u8; BUFFER_LEN];
    'reads: loop {
        match files.read(&mut buf) {
            Got::End => return Ok(bytes),
            Got::Failed => return Err(ReadError::Fault),
            Got::Bytes(n) => {
                if n > limit - bytes.len() {
                    return Err(ReadError::TooLong);
                }
                bytes.extend_from_slice(&buf[..n])?;
            }
        }
    }
}

/// Has the sink take all the bytes. Takes no memory.
///
/// # Errors
///
/// The sink failed, once and in its last call: nothing more is written after that. It took exactly
/// the first `sent` bytes.
pub fn write_all<W: Sink>(sink: &mut W, bytes: &[u8]) -> Result<(), WriteError>
    ensures told { (W.state sink.new).told ≡ (W.state sink.old).told }
    ensures faults { (W.state sink.old).faults ≤ (W.state sink.new).faults }
    ensures all { OnOk result ((W.state sink.old).told ≡ true →
        (W.state sink.new).taken ≡ (W.state sink.old).taken ++ bytes.now) }
    ensures front { IfErr result (λ error. (W.state sink.old).told ≡ true →
        (W.state sink.new).taken ≡ (W.state sink.old).taken ++ take (sent_of error) bytes.now) }
    ensures sent { IfErr result (λ error. sent_of error < length bytes.now) }
    ensures counted { OnOk result ((W.state sink.new).faults ≡ (W.state sink.old).faults) }
    ensures cause { OnErr result (SinkFailedLast (W.state sink.old) (W.state sink.new)) }
{
    let mut sent = 0;
    'writes: while sent < bytes.len() {
        match sink.write(&bytes[sent..]) {
            Put::Took(n) => sent += n,
            Put::Failed => return Err(WriteError::Fault { sent }),
        }
    }
    Ok(())
}
