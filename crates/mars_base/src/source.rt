//! An input in memory.
ghost use Rattle.std.specs.Prelude.{◌≡◌, ◌≤◌, ◌<◌, [], ◌++◌, Some, length, take, drop, vec_len, is_err};
ghost use Rattle.std.specs.Io.{ReadsAtMost};
ghost use Rattle.mars_base.specs.Causes.{counted, HasCause};
ghost use Rattle.mars_base.specs.Outside.{Takes};

use crate::{Source, SourceFault};

/// An input in memory. Its calls are numbered from 0, and those whose numbers are in `failing` fail.
#[derive(Drop)]
pub struct MemSource {
    bytes: Vec<u8>,
    at: usize,
    failing: Vec<u64>,
    calls: u64,
    faults: u64,
    ghost within: { at ≤ vec_len bytes },
}

impl MemSource {
    ghost use Rattle.mars_base.specs.MemSource.{rest_of, faults_of, failing_of, calls_of};

    /// An input of these bytes.
    pub fn new(bytes: Vec<u8>, failing: Vec<u64>) -> MemSource
        ensures rest { rest_of result ≡ bytes.items }
        ensures failing { failing_of result ≡ failing.items }
        ensures calls { calls_of result ≡ 0 }
        ensures faults { faults_of result ≡ 0 }
    {
        MemSource {
            bytes,
            at: 0,
            failing,
            calls: 0,
            faults: 0,
        }
    }

    /// The bytes that are left.
    pub fn rest(&self) -> &[u8]
        ensures { result.now ≡ rest_of self.now }
    {
        &self.bytes[self.at..]
    }
}

impl Source for MemSource {
    ghost use Rattle.mars_base.specs.MemSource.{rest_of, faults_of, failing_of, calls_of, fails_next};

    ghost left = { λ m. Some (drop m.at m.bytes.items) };

    ghost faults = { λ m. m.faults };

    /// A call that doesn't fail moves as many bytes as both the rest and the buffer have.
    fn read(&mut self, buf: &mut [u8]) -> Result<usize, SourceFault>
        ensures bound { ReadsAtMost result buf.new }
        ensures bytes { Takes (Some (rest_of self.old)) (Some (rest_of self.new)) result buf.new }
        ensures cause { HasCause (faults_of self.old) (faults_of self.new) result }
        ensures fails { is_err result ≡ fails_next self.old }
        ensures failing { failing_of self.new ≡ failing_of self.old }
        ensures calls { calls_of self.new ≡ counted (calls_of self.old) }
    {
        let call = self.calls;
        self.calls = self.calls.saturating_add(1);
        if self.failing.contains(&call) {
            self.faults = self.faults.saturating_add(1);
            return Err(SourceFault);
        }
        let count = move_front(&self.bytes[self.at..], buf);
        self.at += count;
        Ok(count)
    }
}

// Copies as many bytes as both have.
fn move_front(rest: &[u8], buf: &mut [u8]) -> usize
    ensures within { result ≤ length rest.now }
    ensures bound { result ≤ length buf.new }
    ensures moved { rest.now ≡ take result buf.new ++ drop result rest.now }
    ensures none { result ≡ 0 → 0 < length buf.new → rest.now ≡ [] }
{
    let count = rest.len().min(buf.len());
    buf[..count].copy_from_slice(&rest[..count]);
    count
}
