use crate::store_image;
use mars_base::{MemShelf, MemSink};
use std::test::Fail;

#[test]
fn the_image_and_then_the_text(rt: HostRuntime) -> Result<(), Fail> {
    let alloc = rt.alloc();
    let mut shelf = MemShelf::new(alloc, Vec::new(alloc));
    let mut out = MemSink::new(alloc, 64, Vec::new(alloc)).map_err(|_| "memory")?;
    let answer = store_image(alloc, "p.img", &[7, 8], b"image 2\n", &mut shelf, &mut out);
    assert!(rt; answer.is_ok());
    assert_eq!(rt; out.bytes(), b"image 2\n".as_slice());
    assert!(rt; shelf.file("p.img").is_some());
    Ok(())
}

// A put that fails: the image stands.
#[test]
fn a_refused_put_leaves_the_image(rt: HostRuntime) -> Result<(), Fail> {
    let alloc = rt.alloc();
    let mut shelf = MemShelf::new(alloc, Vec::new(alloc));
    let mut out = MemSink::new(alloc, 0, Vec::new(alloc)).map_err(|_| "memory")?;
    let answer = store_image(alloc, "p.img", &[7, 8], b"image 2\n", &mut shelf, &mut out);
    assert!(rt; answer.is_err());
    assert!(rt; shelf.file("p.img").is_some());
    Ok(())
}
