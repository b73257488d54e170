use super::*;
use lar_bytes::Text;
use std::test::Fail;

// Four units of one size and a larger one, to three: the two least by name become one, and then the next two.
#[test]
fn equal_sizes_are_merged_by_name(rt: HostRuntime) -> Result<(), Fail> {
    let alloc = rt.alloc();
    let names = [
        Text::copied(alloc, "a")?,
        Text::copied(alloc, "b")?,
        Text::copied(alloc, "c")?,
        Text::copied(alloc, "d")?,
        Text::copied(alloc, "main")?,
    ];
    let units = merge(alloc, &names, &[3, 3, 3, 3, 9], 3)?;
    let mut listed = String::new(alloc);
    for unit in units.as_slice() {
        listed.push_str(unit.name.as_str())?;
        listed.push_str(" ")?;
    }
    assert_eq!(rt; listed.as_str(), "a+b c+d main ");
    Ok(())
}
