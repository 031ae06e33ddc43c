//! Each answer is put before more input is asked for, and stands where a read then fails.
ghost use Rattle.std.specs.Prelude.{None};

use mars_base::{MemShelf, MemSink, MemSource, Sink, SinkFault, Source, SourceFault};
use mars_top::mars;
use std::cell::Cell;
use std::test::Fail;

const INC: &[u8] = b"task inc; in a; out y; body { y = a + 1; }\n";

// How many bytes one read gives at most: each line and the blanks behind it.
const LINE: usize = 8;

// An input that gives one line a read, and notes how many bytes were put before each.
#[derive(Drop)]
struct Asking<'a> {
    put: &'a Cell<usize>,
    asked: usize,
    before: [usize; 4],
}

impl Source for Asking<'_> {
    ghost left = { λ _. None };

    ghost faults = { λ _. 0 };

    fn read(&mut self, buf: &mut [u8]) -> Result<usize, SourceFault> {
        if self.asked < 4 {
            self.before[self.asked] = self.put.get();
        }
        self.asked = self.asked.saturating_add(1);
        if self.asked > 3 || buf.len() < LINE {
            return Ok(0);
        }
        buf[..LINE].copy_from_slice(b"1      \n");
        Ok(LINE)
    }
}

// An output that counts the bytes put.
#[derive(Drop)]
struct Putting<'a> {
    put: &'a Cell<usize>,
}

impl Sink for Putting<'_> {
    ghost holds = { λ _. None };

    ghost faults = { λ _. 0 };

    fn put(&mut self, bytes: &[u8]) -> Result<(), SinkFault> {
        self.put.set(self.put.get().saturating_add(bytes.len()));
        Ok(())
    }
}

#[test]
fn answers_go_out_before_more_is_asked(rt: HostRuntime) -> Result<(), Fail> {
    let alloc = rt.alloc();
    let mut shelf = MemShelf::new(alloc, Vec::new(alloc));
    assert!(rt; shelf.put_file("inc.mc", INC).is_ok());
    let put = Cell::new(0);
    let mut source = Asking {
        put: &put,
        asked: 0,
        before: [0; 4],
    };
    let mut out = Putting { put: &put };
    let mut err = MemSink::new(alloc, 4096, Vec::new(alloc)).map_err(|_| "memory")?;
    let words = vec![in alloc;
        String::from_str(alloc, "task")?,
        String::from_str(alloc, "inc.mc")?,
    ]?;
    let got = mars(alloc, &words, &mut shelf, &mut source, &mut out, &mut err);
    assert_eq!(rt; got, 0);
    // "2\n" for each line
    assert_eq!(rt; source.before, [0, 2, 4, 6]);
    Ok(())
}

// The first read gives two lines and a part of the third; the second fails.
#[test]
fn answers_stand_where_a_read_fails(rt: HostRuntime) -> Result<(), Fail> {
    let alloc = rt.alloc();
    let mut shelf = MemShelf::new(alloc, Vec::new(alloc));
    assert!(rt; shelf.put_file("inc.mc", INC).is_ok());
    let mut source = MemSource::new(Vec::from_slice(alloc, b"1\n2\n3")?, vec![in alloc; 1u64]?);
    let mut out = MemSink::new(alloc, 4096, Vec::new(alloc)).map_err(|_| "memory")?;
    let mut err = MemSink::new(alloc, 4096, Vec::new(alloc)).map_err(|_| "memory")?;
    let words = vec![in alloc;
        String::from_str(alloc, "task")?,
        String::from_str(alloc, "inc.mc")?,
    ]?;
    let got = mars(alloc, &words, &mut shelf, &mut source, &mut out, &mut err);
    assert_eq!(rt; got, 6);
    assert_eq!(rt; out.bytes(), b"2\n3\n".as_slice());
    assert_eq!(rt; err.bytes(), b"mars: read fault: input\n".as_slice());
    Ok(())
}
