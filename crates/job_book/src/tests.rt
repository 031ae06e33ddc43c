use crate::JobBook;
use std::test::Fail;

// Of four jobs one ends, one breaks, one is skipped and one is in hand: one alone has given its outputs.
#[test]
fn four_jobs(rt: HostRuntime) -> Result<(), Fail> {
    let mut book = JobBook::new(rt.alloc(), &[2, 1, 1, 0])?;
    for job in 0..4 {
        assert_eq!(rt; book.given(job), None);
    }
    book.start(0);
    book.end(0, &[7, -8]);
    book.start(1);
    book.break_off(1);
    book.skip(2);
    book.start(3);
    assert_eq!(rt; book.given(0), Some(&[7, -8][..]));
    for job in 1..4 {
        assert_eq!(rt; book.given(job), None);
    }
    book.clear();
    assert_eq!(rt; book.given(0), None);
    Ok(())
}
