use crate::read_script_file;
use mars_base::{MemShelf, Side};
use refusals::{Refusal, status};
use script::Silence;
use std::alloc::Global;
use std::test::Fail;

// A shelf with the file `s`.
fn shelf_with(alloc: Global, bytes: &[u8]) -> Result<MemShelf, Fail> {
    let mut shelf = MemShelf::new(alloc, Vec::new(alloc));
    shelf.put_file("s", bytes)?;
    Ok(shelf)
}

// The status with which `s` is read for two units and a cycle of 24 ticks; 0 where it has a script.
fn status_of(alloc: Global, bytes: &[u8]) -> Result<u8, Fail> {
    let mut shelf = shelf_with(alloc, bytes)?;
    let answer = read_script_file(alloc, &mut shelf, "s", 2, 24).map(|_| ());
    Ok(status(&answer))
}

#[test]
fn a_script_and_its_first_bad_line(rt: HostRuntime) -> Result<(), Fail> {
    let alloc = rt.alloc();
    let mut shelf = shelf_with(alloc, b"# A falls\nsilence u0 A 0 13\n")?;
    let script = read_script_file(alloc, &mut shelf, "s", 2, 24).map_err(|_| "refused")?;
    assert!(rt;
        script.silences.as_slice()
            == &[Silence {
                unit: 0,
                side: Side::A,
                cycle: 0,
                tick: 13,
            }][..]
    );
    assert_eq!(rt; status_of(alloc, b"")?, 0);
    assert_eq!(rt; status_of(alloc, b"silence u1 B 2 23")?, 0);
    assert_eq!(rt; status_of(alloc, b"silence u1 B 2 24")?, 9);
    assert_eq!(rt; status_of(alloc, b"silence u3 A 0 0")?, 9);
    Ok(())
}

#[test]
fn no_such_file(rt: HostRuntime) -> Result<(), Fail> {
    let alloc = rt.alloc();
    let mut shelf = MemShelf::new(alloc, Vec::new(alloc));
    let Err(Refusal::ReadFault(Some(name))) = read_script_file(alloc, &mut shelf, "s", 2, 24) else {
        return Err("the file isn't there".into());
    };
    assert_eq!(rt; name.as_slice(), b"s".as_slice());
    Ok(())
}
