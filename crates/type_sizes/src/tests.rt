use super::*;
use lar_bytes::Text;
use std::test::Fail;
use type_table::{Row, Types};

// The list of `(i64,bool)` twice: its two tuples are one row, and its text is reserved as `lengths` says.
#[test]
fn a_list_of_two_equal_tuples(rt: HostRuntime) -> Result<(), Fail> {
    let alloc = rt.alloc();
    let mut types = Types::new(alloc);
    let end = types.intern(Row::End)?;
    let bool_type = types.intern(Row::Bool)?;
    let last = types.intern(Row::More(bool_type, end))?;
    let int = types.intern(Row::Int)?;
    let list = types.intern(Row::More(int, last))?;
    let pair = types.intern(Row::Tuple(list))?;
    let again = types.intern(Row::Tuple(list))?;
    assert_eq!(rt; pair, again);
    let one = types.intern(Row::More(pair, end))?;
    let two = types.intern(Row::More(pair, one))?;
    let names: [Text; 0] = [];
    let text = type_text(alloc, &types, &[], &names, two, 21)?;
    assert_eq!(rt; text.as_str(), "(i64,bool),(i64,bool)");
    Ok(())
}
