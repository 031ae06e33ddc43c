//! An output in memory.
ghost use Rattle.std.specs.Prelude.{◌≡◌, ◌≤◌, ◌<◌, ◌+◌, ◌-◌, [], ◌++◌, Some, true, false, IsTrue, IsErr, IsOk, ◌↔◌, IfOk, length, take, vec_len, vec_capacity};
ghost use Rattle.mars_base.specs.Causes.{counted, HasCause};
ghost use Rattle.mars_base.specs.Outside.{Puts};

use crate::{Memory, Sink, SinkFault};
use std::alloc::Global;

/// An output in memory, with room for so many bytes. Its calls are numbered from 0, and those whose
/// numbers are in `failing` fail and append nothing.
#[derive(Drop)]
pub struct MemSink {
    bytes: Vec<u8>,
    room: usize,
    failing: Vec<u64>,
    calls: u64,
    faults: u64,
    ghost within: { vec_len bytes ≤ room },
    ghost reserved: { room ≤ vec_capacity bytes },
}

impl MemSink {
    ghost use Rattle.mars_base.specs.MemSink.{bytes_of, room_of, faults_of, failing_of, calls_of};

    /// An empty output that has its room already.
    pub fn new(alloc: Global, room: usize, failing: Vec<u64>) -> Result<MemSink, Memory>
        ensures bytes { IfOk result (λ m. bytes_of m ≡ []) }
        ensures room { IfOk result (λ m. room_of m ≡ room) }
        ensures failing { IfOk result (λ m. failing_of m ≡ failing.items) }
        ensures calls { IfOk result (λ m. calls_of m ≡ 0) }
        ensures faults { IfOk result (λ m. faults_of m ≡ 0) }
    {
        Ok(MemSink {
            bytes: Vec::with_capacity(alloc, room)?,
            room,
            failing,
            calls: 0,
            faults: 0,
        })
    }

    /// The bytes that were put.
    pub fn bytes(&self) -> &[u8]
        ensures { result.now ≡ bytes_of self.now }
    {
        self.bytes.as_slice()
    }
}

impl Sink for MemSink {
    ghost use Rattle.mars_base.specs.MemSink.{bytes_of, room_of, faults_of, failing_of, calls_of, fails_next};

    ghost holds = { λ m. Some m.bytes.items };

    ghost faults = { λ m. m.faults };

    /// A piece that doesn't fit the room appends what fits and is a fault.
    fn put(&mut self, bytes: &[u8]) -> Result<(), SinkFault>
        ensures bytes { Puts (Some (bytes_of self.old)) (Some (bytes_of self.new)) result bytes.now }
        ensures cause { HasCause (faults_of self.old) (faults_of self.new) result }
        ensures fails { IsTrue (fails_next self.old) → IsErr result × (bytes_of self.new ≡ bytes_of self.old) }
        ensures appends { fails_next self.old ≡ false → bytes_of self.new ≡ bytes_of self.old ++ take (room_of self.old) bytes.now }
        ensures fits { fails_next self.old ≡ false → (IsOk result ↔ (length bytes.now ≤ room_of self.old)) }
        ensures room { room_of self.new + length (bytes_of self.new) ≡ room_of self.old + length (bytes_of self.old) }
        ensures failing { failing_of self.new ≡ failing_of self.old }
        ensures calls { calls_of self.new ≡ counted (calls_of self.old) }
    {
        let call = self.calls;
        self.calls = self.calls.saturating_add(1);
        if self.failing.contains(&call) {
            self.faults = self.faults.saturating_add(1);
            return Err(SinkFault);
        }
        let count = bytes.len().min(self.room - self.bytes.len());
        if self.bytes.extend_from_slice(&bytes[..count]).is_err() || count < bytes.len() {
            self.faults = self.faults.saturating_add(1);
            return Err(SinkFault);
        }
        Ok(())
    }
}
