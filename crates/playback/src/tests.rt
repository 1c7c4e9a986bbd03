// No clause says that there is memory: here it is seen that a call can succeed.
use crate::{answer, read_input, serve};
use std::test::Fail;

#[test]
fn reads_the_first_bytes(rt: HostRuntime) -> Result<(), Fail> {
    let bytes = [3u8, 1, 2];
    let all = read_input(rt.alloc(), bytes.as_slice(), 4)?;
    assert_eq!(rt; all.as_slice(), [3, 1, 2].as_slice());
    let first = read_input(rt.alloc(), bytes.as_slice(), 2)?;
    assert_eq!(rt; first.as_slice(), [3, 1].as_slice());
    Ok(())
}

#[test]
fn serves_an_answer(rt: HostRuntime) -> Result<(), Fail> {
    let mut out = Vec::new(rt.alloc());
    serve(rt.alloc(), [].as_slice(), &mut out, 4, answer)?;
    assert_eq!(rt; out.as_slice(), b"refused 9\n".as_slice());
    Ok(())
}
