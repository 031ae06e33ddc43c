//! An input that is read.
ghost use Rattle.std.specs.Prelude.{None};

use crate::reading::read_once;
use mars_base::{Source, SourceFault};
use std::io::Read;

/// Any reader as the input. Reads that fail are counted.
#[derive(Drop)]
pub struct StdSource<R> {
    inner: R,
    faults: u64,
}

impl<R> StdSource<R> {
    /// The bytes of a reader.
    pub fn new(inner: R) -> Self {
        StdSource { inner, faults: 0 }
    }
}

impl<R: Read> Source for StdSource<R> {
    ghost left = { λ _. None };

    ghost faults = { λ s. s.faults };

    fn read(&mut self, buf: &mut [u8]) -> Result<usize, SourceFault> {
        match read_once(&mut self.inner, buf) {
            Ok(count) => Ok(count),
            Err(_) => {
                self.faults = self.faults.saturating_add(1);
                Err(SourceFault)
            }
        }
    }
}

#[cfg(test)]
mod tests {
    use super::StdSource;
    use mars_base::{Source, SourceFault};
    use std::io::{self, ErrorKind, Read};

    // A reader that is interrupted, gives two bytes, and then fails.
    #[derive(Drop)]
    struct Reading {
        calls: u32,
    }

    impl Read for Reading {
        fn read(&mut self, buf: &mut [u8]) -> io::Result<usize> {
            self.calls = self.calls.saturating_add(1);
            match self.calls {
                1 => Err(io::Error::from(ErrorKind::Interrupted)),
                2 if buf.len() >= 2 => {
                    buf[..2].copy_from_slice(b"ab");
                    Ok(2)
                }
                _ => Err(io::Error::from(ErrorKind::TimedOut)),
            }
        }
    }

    #[test]
    fn an_interrupted_read_is_tried_again(rt: HostRuntime) {
        let mut source = StdSource::new(Reading { calls: 0 });
        let mut buf = [0u8; 4];
        assert_eq!(rt; source.read(&mut buf), Ok(2));
        assert_eq!(rt; buf, [97, 98, 0, 0]);
        assert_eq!(rt; source.faults, 0);
        assert_eq!(rt; source.read(&mut buf), Err(SourceFault));
        assert_eq!(rt; source.faults, 1);
    }
}
