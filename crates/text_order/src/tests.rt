use super::*;
use lar_bytes::Text;
use std::test::Fail;

// `b`, `a::c`, `a`: a prefix stands before what it begins.
#[test]
fn texts_and_numbers_in_order(rt: HostRuntime) -> Result<(), Fail> {
    let alloc = rt.alloc();
    let texts = [
        Text::copied(alloc, "b")?,
        Text::copied(alloc, "a::c")?,
        Text::copied(alloc, "a")?,
    ];
    let mut order = order_of_texts(alloc, &texts)?;
    assert_eq!(rt; order.as_slice(), [2, 1, 0].as_slice());
    put_in_order(&mut order);
    assert_eq!(rt; order.as_slice(), [0, 1, 2].as_slice());
    let index = index_of_texts(alloc, &texts)?;
    assert_eq!(rt; find_text(&index, "a::c"), Some(1));
    Ok(())
}
