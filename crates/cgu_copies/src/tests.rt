use super::*;
use std::test::Fail;

// 0 calls 1 and 2; 1 and 3 have no home, 2 has one; 1 calls 3, and 2 calls 4, which has no home. The copies of 0 are 1 and 3.
#[test]
fn a_home_is_not_gone_through(rt: HostRuntime) -> Result<(), Fail> {
    let alloc = rt.alloc();
    let callees = [
        vec![in alloc; 1, 2]?,
        vec![in alloc; 3, 3]?,
        vec![in alloc; 4]?,
        vec![in alloc; 1]?,
        vec![in alloc]?,
    ];
    let mut seen = [0; 5];
    let found = copies(
        alloc,
        &callees,
        &[false, true, false, true, true],
        &[0],
        1,
        &mut seen,
    )?;
    assert_eq!(rt; found.as_slice(), [0, 1, 3].as_slice());
    Ok(())
}
