//! The list type.

use std::test::Fail;
use tt_base::Series;

#[test]
fn grows_and_changes(rt: HostRuntime) -> Result<(), Fail> {
    let mut marks = Series::from_vec([false, false].to_vec(rt.alloc())?);
    marks.set(1, true);
    marks.push(false)?;
    assert_eq!(rt; marks.as_slice(), [false, true, false].as_slice());
    Ok(())
}
