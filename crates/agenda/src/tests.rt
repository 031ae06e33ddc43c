use crate::Schedule;
use std::test::Fail;

// Five things, of which the first, the third and the last are due at 2, one at 0 and one never.
#[test]
fn things_in_order(rt: HostRuntime) -> Result<(), Fail> {
    let due = vec![in rt.alloc(); 2, 0, 2, 9, 2]?;
    let agenda = Schedule::new(rt.alloc(), due, 3)?;
    for (number, first) in [(0, Some(1)), (1, None), (2, Some(0))] {
        assert_eq!(rt; agenda.first(number), first);
    }
    for (thing, next) in [(0, Some(2)), (1, None), (2, Some(4)), (4, None)] {
        assert_eq!(rt; agenda.next(thing), next);
    }
    Ok(())
}
