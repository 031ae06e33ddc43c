//! The real files.
ghost use Rattle.std.specs.Prelude.{None};

use crate::reading::read_once;
use mars_base::{Shelf, ShelfFault};
use std::alloc::Global;
use std::fs;
use std::io::ErrorKind;
use std::rt::Files;

// How many bytes of a file are asked for at a time.
const CHUNK: usize = 4_096;

/// The real files. Reads and writes that fail are counted, each by its own count.
#[derive(Drop)]
pub struct FileShelf<'a, R> {
    rt: &'a R,
    bad_reads: u64,
    bad_writes: u64,
}

impl<'a, R> FileShelf<'a, R> {
    /// The files of a runtime.
    pub fn new(rt: &'a R) -> Self {
        FileShelf {
            rt,
            bad_reads: 0,
            bad_writes: 0,
        }
    }
}

impl<R: Files> Shelf for FileShelf<'_, R> {
    ghost holds = { λ _. None };

    ghost failed_reads = { λ s. s.bad_reads };

    ghost failed_writes = { λ s. s.bad_writes };

    fn read(&mut self, alloc: Global, name: &str, limit: u64) -> Result<Vec<u8>, ShelfFault> {
        let mut all = Vec::new(alloc);
        let mut file = match fs::open(self.rt, name) {
            Ok(file) => file,
            Err(error) => {
                self.bad_reads = self.bad_reads.saturating_add(1);
                if error.kind() == ErrorKind::NotFound {
                    return Err(ShelfFault::Missing);
                }
                return Err(ShelfFault::Failed);
            }
        };
        let mut buffer = [0u8; CHUNK];
        loop {
            let Ok(count) = read_once(&mut file, &mut buffer) else {
                self.bad_reads = self.bad_reads.saturating_add(1);
                return Err(ShelfFault::Failed);
            };
            if count == 0 {
                return Ok(all);
            }
            if (all.len() + count) as u64 > limit {
                self.bad_reads = self.bad_reads.saturating_add(1);
                return Err(ShelfFault::TooLong);
            }
            if all.extend_from_slice(&buffer[..count]).is_err() {
                return Err(ShelfFault::Memory);
            }
        }
    }

    fn write(&mut self, name: &str, bytes: &[u8]) -> Result<(), ShelfFault> {
        match fs::write(self.rt, name, bytes) {
            Ok(()) => Ok(()),
            Err(_) => {
                self.bad_writes = self.bad_writes.saturating_add(1);
                Err(ShelfFault::Failed)
            }
        }
    }
}

#[cfg(test)]
mod tests {
    use super::FileShelf;
    use mars_base::{Shelf, ShelfFault};

    #[test]
    fn faults_of_files_are_counted(rt: HostRuntime) {
        let mut shelf = FileShelf::new(&rt);
        let missing = shelf.read(rt.alloc(), "no/such/folder/file", 10);
        assert!(rt; matches!(missing, Err(ShelfFault::Missing)));
        assert_eq!(rt;
            shelf.write("no/such/folder/file", b"1"),
            Err(ShelfFault::Failed)
        );
        assert_eq!(rt; (shelf.bad_reads, shelf.bad_writes), (1, 1));
    }
}
