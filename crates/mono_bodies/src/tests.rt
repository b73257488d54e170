use super::*;
use lar_source::Span;
use lar_typed::{TypedExpr, TypedStmt};
use sqlite_items::Items;
use std::test::Fail;

// `print(f(g()));` where f is function 7 and g is function 3: the statement and two expressions; f is called before g.
#[test]
fn a_call_in_an_argument(rt: HostRuntime) -> Result<(), Fail> {
    let alloc = rt.alloc();
    let at = Span {
        file: 0,
        line: 1,
        col: 1,
    };
    let inner = TypedExpr::call(alloc, 0, 3, 1, Items::new(alloc), at)?;
    let args = Items::from_vec(vec![in alloc; inner]?);
    let outer = TypedExpr::call(alloc, 0, 7, 2, args, at)?;
    let body = vec![in alloc; TypedStmt::print(outer)]?;
    assert_eq!(rt; body_size(body.as_slice()), 3);
    let calls = body_calls(alloc, body.as_slice())?;
    assert_eq!(rt; calls.len(), 2);
    assert_eq!(rt; calls[0].callee, 7);
    assert_eq!(rt; calls[1].callee, 3);
    Ok(())
}
