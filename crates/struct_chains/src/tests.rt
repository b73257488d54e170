use crate::followers;
use std::alloc::{AllocError, Global};
use std::test::Fail;

fn graph(alloc: Global, lists: &[&[usize]]) -> Result<Vec<Vec<usize>>, AllocError> {
    let mut out = Vec::new(alloc);
    for list in lists {
        out.push(list.to_vec(alloc)?)?;
    }
    Ok(out)
}

// A chain, two ways of which the longer counts, a cycle and what leads to it, a node that is not there, and no node.
#[test]
fn chains_of_small_graphs(rt: HostRuntime) -> Result<(), Fail> {
    let alloc = rt.alloc();
    let cases: [(&[&[usize]], usize, &[usize]); 6] = [
        (&[&[1], &[2], &[]], 64, &[2, 1, 0]),
        (&[&[2, 1], &[2], &[]], 64, &[2, 1, 0]),
        (&[&[1], &[2], &[1], &[]], 5, &[5, 5, 5, 0]),
        (&[&[1], &[2], &[3], &[]], 2, &[2, 2, 1, 0]),
        (&[&[7]], 64, &[1]),
        (&[], 64, &[]),
    ];
    for (lists, limit, expected) in cases {
        let found = followers(alloc, &graph(alloc, lists)?, limit)?;
        assert!(rt; found.as_slice() == expected, "with limit {limit}");
    }
    Ok(())
}
