use crate::{write_broken, write_lost, write_out, write_task};
use lines::LineBuf;
use mars_base::MemSink;
use std::alloc::Global;
use std::test::Fail;

// An output with room for a text, and no call that fails.
fn sink(alloc: Global) -> Result<MemSink, Fail> {
    Ok(MemSink::new(alloc, 70_000, Vec::new(alloc))?)
}

#[test]
fn an_output_has_its_cycle_name_instance_tick_and_words(rt: HostRuntime) -> Result<(), Fail> {
    let alloc = rt.alloc();
    let mut buffer = LineBuf::new(alloc)?;
    let mut out = sink(alloc)?;
    assert!(rt; write_out(&mut buffer, &mut out, 0, b"lamp".as_slice(), 0, 19, &[42]).is_ok());
    assert!(rt;
        write_out(
            &mut buffer,
            &mut out,
            999_999,
            b"v".as_slice(),
            12,
            65_536,
            &[-2_147_483_648, 0, 2_147_483_647]
        )
        .is_ok()
    );
    assert!(rt; buffer.flush(&mut out).is_ok());
    assert_eq!(rt;
        out.bytes(),
        b"out 0 lamp 0 19 42\nout 999999 v 12 65536 -2147483648 0 2147483647\n".as_slice()
    );
    Ok(())
}

#[test]
fn lost_units_broken_jobs_and_tasks_have_their_lines(rt: HostRuntime) -> Result<(), Fail> {
    let alloc = rt.alloc();
    let mut buffer = LineBuf::new(alloc)?;
    let mut out = sink(alloc)?;
    assert!(rt; write_lost(&mut buffer, &mut out, 3, 7).is_ok());
    assert!(rt; write_broken(&mut buffer, &mut out, 10, b"pump".as_slice(), 2).is_ok());
    assert!(rt; write_task(&mut buffer, &mut out, b"mean".as_slice(), 241, 221).is_ok());
    assert!(rt; write_task(&mut buffer, &mut out, b"idle".as_slice(), 2_147_483_647, 0).is_ok());
    assert!(rt; buffer.flush(&mut out).is_ok());
    assert_eq!(rt;
        out.bytes(),
        b"lost 3 u7\nbroken 10 pump 2\ntask mean maxt 241 seen 221\ntask idle maxt 2147483647 seen 0\n".as_slice()
    );
    Ok(())
}

#[test]
fn a_put_that_fails_is_told_and_leaves_a_front(rt: HostRuntime) -> Result<(), Fail> {
    let alloc = rt.alloc();
    let mut buffer = LineBuf::new(alloc)?;
    let mut failing = Vec::new(alloc);
    failing.push(1)?;
    let mut out = MemSink::new(alloc, 70_000, failing)?;
    assert!(rt; write_lost(&mut buffer, &mut out, 0, 1).is_ok());
    assert!(rt; buffer.flush(&mut out).is_ok());
    assert!(rt; write_lost(&mut buffer, &mut out, 1, 1).is_ok());
    assert!(rt; buffer.flush(&mut out).is_err());
    assert_eq!(rt; out.bytes(), b"lost 0 u1\n".as_slice());
    Ok(())
}
