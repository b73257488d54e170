use super::*;
use lar_bytes::Text;
use mono_items::UnitPlan;
use std::test::Fail;

// A unit with an item and a copy, and one that has neither and is as large as can be.
#[test]
fn lines_of_units(rt: HostRuntime) -> Result<(), Fail> {
    let alloc = rt.alloc();
    let plans = [
        UnitPlan {
            name: Text::copied(alloc, "b")?,
            size: 4,
            home: vec![in alloc; 2]?,
            copies: vec![in alloc; 1]?,
        },
        UnitPlan {
            name: Text::copied(alloc, "a+main")?,
            size: u64::MAX,
            home: Vec::new(alloc),
            copies: Vec::new(alloc),
        },
    ];
    let text = units_text(alloc, &plans)?;
    assert_eq!(rt;
        text.as_slice(),
        b"b size 4 items 1 copies 1\na+main size 18446744073709551615 items 0 copies 0\n".as_slice()
    );
    Ok(())
}
