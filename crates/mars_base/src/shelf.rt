//! Files in memory.
ghost use Rattle.std.specs.Prelude.{◌≡◌, ◌≤◌, ◌<◌, ◌↔◌, [], ◌++◌, Some, None, Option, List, ℕ, IfOk, OnOk, OnErr, IsErrOf, IsTrue, length, vec_len};
ghost use Rattle.std.specs.Option.{option_copied};
ghost use Rattle.mars_base.specs.Causes.{counted, Rose};
ghost use Rattle.mars_base.specs.Outside.{file_at, place_at, Reads, Wrote, Refused, WritesOnly};

use crate::{File, Memory, Shelf, ShelfFault, Text};
use std::alloc::Global;

/// Files in memory. Its calls, reads and writes together, are numbered from 0, and those whose numbers
/// are in `failing` fail.
#[derive(Drop)]
pub struct MemShelf {
    files: Vec<File>,
    failing: Vec<u64>,
    calls: u64,
    bad_reads: u64,
    bad_writes: u64,
}

impl MemShelf {
    ghost use Rattle.mars_base.specs.MemShelf.{files_of, failed_reads_of, failed_writes_of, failing_of, calls_of, fails_next};

    /// No files yet, and no fault.
    pub fn new(alloc: Global, failing: Vec<u64>) -> MemShelf
        ensures files { files_of result ≡ [] }
        ensures failing { failing_of result ≡ failing.items }
        ensures calls { calls_of result ≡ 0 }
        ensures reads { failed_reads_of result ≡ 0 }
        ensures writes { failed_writes_of result ≡ 0 }
    {
        MemShelf {
            files: Vec::new(alloc),
            failing,
            calls: 0,
            bad_reads: 0,
            bad_writes: 0,
        }
    }

    /// Puts a file, in place of one of that name. It is no call that is numbered.
    pub fn put_file(&mut self, name: &str, bytes: &[u8]) -> Result<(), Memory>
        ensures ok { OnOk result (Wrote (Some (files_of self.old)) (Some (files_of self.new)) name.now bytes.now) }
        ensures err { OnErr result (files_of self.new ≡ files_of self.old) }
        ensures failing { failing_of self.new ≡ failing_of self.old }
        ensures calls { calls_of self.new ≡ calls_of self.old }
        ensures reads { failed_reads_of self.new ≡ failed_reads_of self.old }
        ensures writes { failed_writes_of self.new ≡ failed_writes_of self.old }
    {
        let alloc = *self.files.allocator();
        replace(alloc, &mut self.files, name.as_bytes(), bytes)
    }

    /// The bytes under a name; None exactly where no file has it.
    pub fn file(&self, name: &str) -> Option<&[u8]>
        ensures { option_copied result ≡ file_at name.now (files_of self.now) }
    {
        find(&self.files, name.as_bytes())
    }

    // Counts a call, and answers whether it fails.
    fn count_call(&mut self) -> bool
        ensures fails { result ≡ fails_next self.old }
        ensures after { self.new ≡ record self.old { calls = counted self.old.calls } }
    {
        let call = self.calls;
        self.calls = self.calls.saturating_add(1);
        self.failing.contains(&call)
    }
}

// The bytes of the first file with the name.
fn find<'a>(files: &'a [File], name: &[u8]) -> Option<&'a [u8]>
    ensures { option_copied result ≡ file_at name.now files.now }
{
    for file in files {
        if file.name.as_slice() == name {
            return Some(file.bytes.as_slice());
        }
    }
    None
}

// The place of the first file with the name, or the number of files.
fn place_of(files: &[File], name: &[u8]) -> usize
    ensures { result ≡ place_at name.now files.now }
{
    for (place, file) in files.iter().enumerate() {
        if file.name.as_slice() == name {
            return place;
        }
    }
    files.len()
}

// Puts a file in the place of one of that name, or behind the others.
fn replace(alloc: Global, files: &mut Vec<File>, name: &[u8], bytes: &[u8]) -> Result<(), Memory>
    ensures ok { OnOk result (Wrote (Some files.old.items) (Some files.new.items) name.now bytes.now) }
    ensures err { OnErr result (files.new.items ≡ files.old.items) }
{
    let place = place_of(files, name);
    let bytes = Text::from_slice(alloc, bytes)?;
    if place < files.len() {
        files[place].bytes = bytes;
        return Ok(());
    }
    let name = Text::from_slice(alloc, name)?;
    files.push(File { name, bytes })?;
    Ok(())
}

impl Shelf for MemShelf {
    ghost use Rattle.mars_base.specs.MemShelf.{files_of, failed_reads_of, failed_writes_of, failing_of, calls_of, fails_next};

    ghost holds = { λ m. Some m.files.items };

    ghost failed_reads = { λ m. m.bad_reads };

    ghost failed_writes = { λ m. m.bad_writes };

    fn read(&mut self, alloc: Global, name: &str, limit: u64) -> Result<Vec<u8>, ShelfFault>
        ensures kept { files_of self.new ≡ files_of self.old }
        ensures short { IfOk result (λ bytes. vec_len bytes ≤ limit) }
        ensures answer { Reads (λ bytes. bytes.items) (Some (files_of self.old)) name.now limit result (failed_reads_of self.old) (failed_reads_of self.new) }
        ensures cause { IsErrOf result ShelfFault.Failed → Rose (failed_reads_of self.old) (failed_reads_of self.new) }
        ensures later { failed_reads_of self.old ≤ failed_reads_of self.new }
        ensures writes { failed_writes_of self.new ≡ failed_writes_of self.old }
        ensures fails { IsErrOf result ShelfFault.Failed ↔ IsTrue (fails_next self.old) }
        ensures failing { failing_of self.new ≡ failing_of self.old }
        ensures calls { calls_of self.new ≡ counted (calls_of self.old) }
    {
        if self.count_call() {
            self.bad_reads = self.bad_reads.saturating_add(1);
            return Err(ShelfFault::Failed);
        }
        let Some(bytes) = find(&self.files, name.as_bytes()) else {
            return Err(ShelfFault::Missing);
        };
        if bytes.len() as u64 > limit {
            return Err(ShelfFault::TooLong);
        }
        match bytes.to_vec(alloc) {
            Ok(copy) => Ok(copy),
            Err(_) => Err(ShelfFault::Memory),
        }
    }

    fn write(&mut self, name: &str, bytes: &[u8]) -> Result<(), ShelfFault>
        ensures written { OnOk result (Wrote (Some (files_of self.old)) (Some (files_of self.new)) name.now bytes.now) }
        ensures refused { OnErr result (files_of self.new ≡ files_of self.old) }
        ensures kinds { WritesOnly result }
        ensures cause { IsErrOf result ShelfFault.Failed → Rose (failed_writes_of self.old) (failed_writes_of self.new) }
        ensures later { failed_writes_of self.old ≤ failed_writes_of self.new }
        ensures reads { failed_reads_of self.new ≡ failed_reads_of self.old }
        ensures fails { IsErrOf result ShelfFault.Failed ↔ IsTrue (fails_next self.old) }
        ensures failing { failing_of self.new ≡ failing_of self.old }
        ensures calls { calls_of self.new ≡ counted (calls_of self.old) }
    {
        if self.count_call() {
            self.bad_writes = self.bad_writes.saturating_add(1);
            return Err(ShelfFault::Failed);
        }
        let alloc = *self.files.allocator();
        match replace(alloc, &mut self.files, name.as_bytes(), bytes) {
            Ok(()) => Ok(()),
            Err(_) => Err(ShelfFault::Memory),
        }
    }
}
