// A sink in memory, with room that is taken when it is made.
ghost use Rattle.std.specs.Prelude.{◌≡◌, ◌≤◌, ◌<◌, ◌+◌, ◌++◌, true, IfOk, vec_len, vec_capacity, min, length, take};
ghost use Rattle.pz_io.specs.Outside.{new_sink, raised, raised_if};
ghost use Rattle.pz_io.specs.Outcomes.{IfTook, OnWriteFailed, is_write_failed};

use crate::outside::{Put, Sink};
use std::alloc::{AllocError, Global};

/// A sink in memory, of which given writes fail.
///
/// The writes are numbered from 1. The count of faults rises at exactly the writes whose numbers
/// are listed, and at those with no room left. A `write` takes no memory.
#[derive(Drop)]
pub struct RoomySink {
    bytes: Vec<u8>,
    room: usize,
    calls: Vec<u64>,
    made: u64,
    faults: u64,
    failed: bool,
    ghost fits: { vec_len bytes + room ≤ vec_capacity bytes },
}

impl RoomySink {
    ghost use Rattle.pz_io.specs.Roomy.{roomy_state, roomy_room, roomy_made, roomy_calls, next_write_fails};

    /// A sink for `room` bytes, failing at the listed writes. Only want of memory fails.
    pub fn new(alloc: Global, room: usize, calls: Vec<u64>) -> Result<RoomySink, AllocError>
        ensures state { IfOk result (λ sink. roomy_state sink ≡ new_sink true) }
        ensures room { IfOk result (λ sink. roomy_room sink ≡ room) }
        ensures made { IfOk result (λ sink. roomy_made sink ≡ 0) }
        ensures calls { IfOk result (λ sink. roomy_calls sink ≡ calls.items) }
    {
        let bytes = Vec::with_capacity(alloc, room)?;
        Ok(RoomySink {
            bytes,
            room,
            calls,
            made: 0,
            faults: 0,
            failed: false,
        })
    }

    /// The bytes taken so far.
    pub fn bytes(&self) -> &[u8]
        ensures { result.now ≡ (roomy_state self.now).taken }
    {
        &self.bytes
    }
}

impl Sink for RoomySink {
    ghost use Rattle.pz_io.specs.Roomy.{roomy_state, roomy_room, roomy_made, roomy_calls, next_write_fails};

    ghost state = { roomy_state };

    /// A write that does not fail takes as much of the piece as there is room.
    fn write(&mut self, piece: &[u8]) -> Put
        requires { 0 < length piece.now }
        ensures last { (roomy_state self.new).failed ≡ is_write_failed result }
        ensures faults { (roomy_state self.old).faults ≤ (roomy_state self.new).faults }
        ensures count { IfTook result
            (λ n. (1 ≤ n) × (n ≡ min (length piece.now) (roomy_room self.old))) }
        ensures bytes { IfTook result
            (λ n. (roomy_state self.new).taken ≡ (roomy_state self.old).taken ++ take n piece.now) }
        ensures room { IfTook result (λ n. roomy_room self.new + n ≡ roomy_room self.old) }
        ensures nothing { OnWriteFailed result
            ((roomy_state self.new).taken ≡ (roomy_state self.old).taken) }
        ensures same_room { OnWriteFailed result (roomy_room self.new ≡ roomy_room self.old) }

        // which writes fail
        ensures made { roomy_made self.new ≡ raised (roomy_made self.old) }
        ensures calls { roomy_calls self.new ≡ roomy_calls self.old }
        ensures counted { (roomy_state self.new).faults ≡
            raised_if (next_write_fails self.old) (roomy_state self.old).faults }
        ensures fails { is_write_failed result ≡ next_write_fails self.old }
    {
        self.made = self.made.saturating_add(1);
        if self.room == 0 || self.calls.contains(&self.made) {
            self.faults = self.faults.saturating_add(1);
            self.failed = true;
            return Put::Failed;
        }
        self.failed = false;
        let n = piece.len().min(self.room);
        match self.bytes.extend_from_slice(&piece[..n]) {
            Ok(()) => {
                self.room -= n;
                Put::Took(n)
            }
            // the room was taken when the sink was made
            Err(_) => unreachable!(),
        }
    }
}
