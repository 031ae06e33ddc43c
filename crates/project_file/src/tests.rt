//! A project file in memory, as it is read or refused.
use crate::read_project_file;
use mars_base::{MemShelf, MemSink};
use refusals::say;
use std::test::Fail;

const ONE: &str =
    "[cluster]\nunits = 1\nslot_words = 2\nprecision = 1\ncycles_per_tick = 7\n[[task]]\nname = \"inc\"\nfile = \"inc.mc\"\n[[transaction]]\nname = \"t\"\nperiod = 6\ndeadline = 6\ntasks = [\"inc\"]\n";

#[test]
fn a_project_or_its_first_fault(rt: HostRuntime) -> Result<(), Fail> {
    let alloc = rt.alloc();
    for (name, old, new, line) in [
        ("p.toml", "units = 1", "units = 2", ""),
        (
            "q.toml",
            "units = 1",
            "units = 2",
            "mars: read fault: q.toml\n",
        ),
        (
            "p.toml",
            "[cluster]",
            "[cluster",
            "mars: p.toml: not toml\n",
        ),
        (
            "p.toml",
            "deadline = 6",
            "deadline = 7",
            "mars: p.toml: transaction 0: deadline above period\n",
        ),
        (
            "p.toml",
            "\"inc.mc\"",
            "\"inc.mc\"\nunits = [1]",
            "mars: p.toml: task 0: unknown unit\n",
        ),
    ] {
        let text = ONE.replace(alloc, old, new)?;
        let mut shelf = MemShelf::new(alloc, Vec::new(alloc));
        assert!(rt; shelf.put_file("p.toml", text.as_bytes()).is_ok());
        let mut err = MemSink::new(alloc, 80, Vec::new(alloc)).map_err(|_| "memory")?;
        let answer = match read_project_file(alloc, &mut shelf, name) {
            Ok(project) => {
                assert_eq!(rt; project.tasks.len(), 1);
                Ok(())
            }
            Err(refused) => Err(refused),
        };
        say(&mut err, &answer);
        assert_eq!(rt; err.bytes(), line.as_bytes(), "{new}");
    }
    Ok(())
}
