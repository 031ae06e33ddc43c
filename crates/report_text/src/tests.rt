use crate::report;
use graph::NetTask;
use mars_base::{Memory, Text};
use sqlite_items::Items;
use std::alloc::Global;
use std::test::Fail;

fn task(alloc: Global, name: &[u8]) -> Result<NetTask, Memory> {
    Ok(NetTask {
        name: Text::from_slice(alloc, name)?,
        transaction: 0,
        units: 1,
        ins: Items::new(alloc),
        outs: Items::new(alloc),
    })
}

#[test]
fn each_task_has_its_line(rt: HostRuntime) -> Result<(), Fail> {
    let alloc = rt.alloc();
    let inc = [task(alloc, b"inc")?];
    let text = report(alloc, &inc, &[7], 113)?;
    assert_eq!(rt; text.as_slice(), b"maxt inc 7\nimage 113\n".as_slice());
    let two = [task(alloc, b"a")?, task(alloc, b"b")?];
    let text = report(alloc, &two, &[7, 2_147_483_647], 190)?;
    assert_eq!(rt;
        text.as_slice(),
        b"maxt a 7\nmaxt b 2147483647\nimage 190\n".as_slice()
    );
    Ok(())
}
