//! Worked rows of the command `plan` by the length of the image, over the outside in memory.
use mars_base::{MemShelf, MemSink, MemSource};
use mars_top::mars;
use std::alloc::Global;
use std::test::Fail;

// Whether `plan p.toml 100` answers this status, a text that begins so, and this line; nothing is put where it is refused.
fn tells(
    alloc: Global,
    shelf: &mut MemShelf,
    status: u8,
    text: &str,
    line: &str,
) -> Result<bool, Fail> {
    let mut source = MemSource::new(Vec::new(alloc), Vec::new(alloc));
    let mut out = MemSink::new(alloc, 4096, Vec::new(alloc))?;
    let mut err = MemSink::new(alloc, 4096, Vec::new(alloc))?;
    let words = vec![in alloc;
        String::from_str(alloc, "plan")?,
        String::from_str(alloc, "p.toml")?,
        String::from_str(alloc, "100")?,
    ]?;
    let got = mars(alloc, &words, shelf, &mut source, &mut out, &mut err);
    let begins = out.bytes().starts_with(text.as_bytes());
    let is_told = status == 0 || out.bytes().is_empty();
    Ok(got == status && begins && is_told && err.bytes() == line.as_bytes())
}

// A task of 84 statements with 64,429 instructions, which take six bytes each in an image.
fn long_task(alloc: Global) -> Result<Vec<u8>, Fail> {
    let mut text = Vec::from_slice(alloc, b"task long; in a; out y; body {")?;
    for _ in 0..84 {
        text.extend_from_slice(b"y=a")?;
        for _ in 0..255 {
            text.extend_from_slice(b">a")?;
        }
        text.extend_from_slice(b";")?;
    }
    text.extend_from_slice(b"}")?;
    Ok(text)
}

// So many such tasks on one unit, each fed by a sensor.
fn long_tasks(alloc: Global, names: &[&str]) -> Result<String, Fail> {
    let mut text = String::from_str(
        alloc,
        "[cluster]\nunits = 1\nslot_words = 2\nprecision = 1\ncycles_per_tick = 10000\nround = 6\n",
    )?;
    let mut tasks = String::new(alloc);
    for name in names {
        text.push_str("[[task]]\nname = \"")?;
        text.push_str(name)?;
        text.push_str("\"\nfile = \"long.mc\"\n[[sensor]]\nname = \"")?;
        text.push_str(name)?;
        text.push_str("\"\nto = \"")?;
        text.push_str(name)?;
        text.push_str(".a\"\n")?;
        if !tasks.is_empty() {
            tasks.push_str(", ")?;
        }
        tasks.push_str("\"")?;
        tasks.push_str(name)?;
        tasks.push_str("\"")?;
    }
    text.push_str("[[transaction]]\nname = \"t\"\nperiod = 6000\ndeadline = 6000\ntasks = [")?;
    text.push_str(tasks.as_str())?;
    text.push_str("]\n")?;
    Ok(text)
}

// The image of ten tasks of 386,574 bytes of code each can be written; that of eleven has more than 4,194,304 bytes.
#[test]
fn image_too_long(rt: HostRuntime) -> Result<(), Fail> {
    let alloc = rt.alloc();
    let names = ["a", "b", "c", "d", "e", "f", "g", "h", "i", "j", "k"];
    for (names, status, text, line) in [
        (&names[..10], 0, "cluster units 1 slot_words 2 ", ""),
        (&names[..], 13, "", "mars: too long: p.toml\n"),
    ] {
        let project = long_tasks(alloc, names)?;
        let task = long_task(alloc)?;
        let mut shelf = MemShelf::new(alloc, Vec::new(alloc));
        shelf.put_file("p.toml", project.as_bytes())?;
        shelf.put_file("long.mc", &task)?;
        assert!(rt; tells(alloc, &mut shelf, status, text, line)?, "{line}");
    }
    Ok(())
}
