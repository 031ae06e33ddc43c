//! The tasks of a project whose files are in memory.
use crate::read_tasks;
use mars_base::{MemShelf, MemSink};
use project_reader::read_project;
use refusals::say;
use std::test::Fail;

const TWO: &str =
    "[cluster]\nunits = 2\nslot_words = 2\nprecision = 1\ncycles_per_tick = 7\n[[task]]\nname = \"a\"\nfile = \"a.mc\"\nunits = [0]\n[[task]]\nname = \"b\"\nfile = \"b.mc\"\nunits = [1]\n[[transaction]]\nname = \"t\"\nperiod = 24\ndeadline = 24\ntasks = [\"a\", \"b\"]\n";

// Each task is read from its own file, in order, and the first refusal names its file.
#[test]
fn each_task_is_read_from_its_file(rt: HostRuntime) -> Result<(), Fail> {
    let alloc = rt.alloc();
    for (first, second, count, line) in [
        ("inc.mc", "inc.mc", 2, ""),
        ("inc.mc", "bad.mc", 0, "mars: bad.mc: 8: bad byte\n"),
        ("bad.mc", "none.mc", 0, "mars: bad.mc: 8: bad byte\n"),
        ("none.mc", "bad.mc", 0, "mars: read fault: none.mc\n"),
    ] {
        let text = TWO.replace(alloc, "a.mc", first)?;
        let text = text.as_str().replace(alloc, "b.mc", second)?;
        let mut shelf = MemShelf::new(alloc, Vec::new(alloc));
        assert!(rt;
            shelf
                .put_file("inc.mc", b"task inc; in a; out y; body { y = a + 1; }")
                .is_ok()
        );
        assert!(rt; shelf.put_file("bad.mc", b"task t; @").is_ok());
        let Ok(project) = read_project(alloc, text.as_bytes()) else {
            panic!(rt; "the project has no fault");
        };
        let mut err = MemSink::new(alloc, 80, Vec::new(alloc)).map_err(|_| "memory")?;
        let answer = match read_tasks(alloc, &mut shelf, project.tasks.as_slice()) {
            Ok(tasks) => {
                assert_eq!(rt; tasks.len(), count);
                Ok(())
            }
            Err(refused) => Err(refused),
        };
        say(&mut err, &answer);
        assert_eq!(rt; err.bytes(), line.as_bytes(), "{first} {second}");
    }
    Ok(())
}
