use super::*;
use std::process::Abort;
use std::test::Fail;

// What is printed of the longest image there can be, which holds no row, with `more` bytes after it, and how many bytes are left unread.
fn prints(
    rt: &(impl Abort + AllocGlobal),
    more: usize,
    expected: &str,
    left: usize,
) -> Result<(), Fail> {
    let header = [4, 3000, 0, 0, 24, 60024].into_iter();
    let mut bytes: Vec<u8> = header.flat_map(u32::to_le_bytes).collect(rt.alloc())?;
    bytes.resize(60024usize.saturating_add(more), 0)?;
    let mut input = bytes.as_slice();
    let mut text = Vec::new(rt.alloc());
    run(rt.alloc(), &mut input, &mut text)?;
    assert_eq!(rt; text.as_slice(), expected.as_bytes());
    assert_eq!(rt; input.len(), left);
    Ok(())
}

#[test]
fn one_byte_more_is_read_and_refused(rt: HostRuntime) -> Result<(), Fail> {
    prints(&rt, 0, "image 4 3000 0\n", 0)?;
    prints(&rt, 1, "refused 14 0\n", 0)?;
    prints(&rt, 9, "refused 14 0\n", 8)
}
