use crate::{InWords, TaskStates};
use std::test::Fail;

#[test]
fn states_of_two_tasks(rt: HostRuntime) -> Result<(), Fail> {
    let mut states = TaskStates::new(rt.alloc(), &[2, 0])?;
    assert_eq!(rt; states.get(0), [0, 0].as_slice());
    states.set(0, &[7, -8]);
    assert_eq!(rt; states.get(0), [7, -8].as_slice());
    assert!(rt; states.get(1).is_empty());
    Ok(())
}

#[test]
fn inputs_port_by_port(rt: HostRuntime) -> Result<(), Fail> {
    let mut ins = InWords::new(rt.alloc())?;
    ins.add(&[1, 2]);
    ins.add(&[]);
    ins.add(&[-3]);
    assert_eq!(rt; ins.words(), [1, 2, -3].as_slice());
    ins.clear();
    assert!(rt; ins.words().is_empty());
    Ok(())
}
