//! An output that is written to.
ghost use Rattle.std.specs.Prelude.{None};

use mars_base::{Sink, SinkFault};
use std::io::Write;

/// Any writer as an output. Each put is flushed, so that it is seen at once; puts that fail are counted.
#[derive(Drop)]
pub struct StdSink<W> {
    inner: W,
    faults: u64,
}

impl<W> StdSink<W> {
    /// The output that a writer is.
    pub fn new(inner: W) -> Self {
        StdSink { inner, faults: 0 }
    }
}

impl<W: Write> Sink for StdSink<W> {
    ghost holds = { λ _. None };

    ghost faults = { λ s. s.faults };

    fn put(&mut self, bytes: &[u8]) -> Result<(), SinkFault> {
        if self.inner.write_all(bytes).is_err() || self.inner.flush().is_err() {
            self.faults = self.faults.saturating_add(1);
            return Err(SinkFault);
        }
        Ok(())
    }
}

#[cfg(test)]
mod tests {
    use super::StdSink;
    use mars_base::{Sink, SinkFault};
    use std::io::{self, ErrorKind, Write};

    // A writer that takes three bytes, and then fails.
    #[derive(Drop)]
    struct Writing {
        room: usize,
    }

    impl Write for Writing {
        fn write(&mut self, bytes: &[u8]) -> io::Result<usize> {
            if self.room == 0 {
                return Err(io::Error::from(ErrorKind::TimedOut));
            }
            let count = self.room.min(bytes.len());
            self.room -= count;
            Ok(count)
        }

        fn flush(&mut self) -> io::Result<()> {
            Ok(())
        }
    }

    #[test]
    fn a_put_that_fails_is_counted(rt: HostRuntime) {
        let mut sink = StdSink::new(Writing { room: 3 });
        assert_eq!(rt; sink.put(b"ab"), Ok(()));
        assert_eq!(rt; sink.put(b"cd"), Err(SinkFault));
        assert_eq!(rt; sink.faults, 1);
    }
}
