use crate::ports_of;
use mars_base::{Memory, Role, Text};
use mc_tree::{Cell, Task};
use sqlite_items::Items;
use std::alloc::Global;
use std::test::Fail;

fn task_of(alloc: Global, rows: &[(Role, &str, u16)]) -> Result<Task, Memory> {
    let mut cells = Items::new(alloc);
    for (role, name, width) in rows {
        cells.push(Cell {
            role: *role,
            name: Text::from_slice(alloc, name.as_bytes())?,
            place: 0,
            width: *width,
        })?;
    }
    Ok(Task {
        name: Text::from_slice(alloc, b"t")?,
        cells,
        funcs: Items::new(alloc),
        body: Items::new(alloc),
        counters: 0,
    })
}

#[test]
fn ports_stand_in_declared_order(rt: HostRuntime) -> Result<(), Fail> {
    let alloc = rt.alloc();
    let rows = [
        (Role::Out, "y", 2),
        (Role::In, "a", 1),
        (Role::State, "s", 3),
        (Role::In, "b", 16),
        (Role::Out, "z", 1),
        (Role::Local, "i", 1),
    ];
    let Ok(task) = task_of(alloc, &rows) else {
        panic!(rt; "there is memory");
    };
    let Ok(ports) = ports_of(alloc, &task) else {
        panic!(rt; "there is memory");
    };
    let ins = [(&b"a"[..], 1), (&b"b"[..], 16)];
    let outs = [(&b"y"[..], 2), (&b"z"[..], 1)];
    assert_eq!(rt; ports.ins.len(), 2);
    assert_eq!(rt; ports.outs.len(), 2);
    for (port, row) in ports.ins.as_slice().iter().zip(ins) {
        assert_eq!(rt; (port.name.as_slice(), port.width), row);
    }
    for (port, row) in ports.outs.as_slice().iter().zip(outs) {
        assert_eq!(rt; (port.name.as_slice(), port.width), row);
    }
    Ok(())
}
