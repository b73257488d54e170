use super::*;
use std::alloc::{AllocError, Global};
use std::test::Fail;

// The listing of what the bytes spell, or nothing where they spell nothing.
fn listing_of(alloc: Global, bytes: &[u8]) -> Result<Vec<u8>, AllocError> {
    let mut text = Vec::new(alloc);
    if let Ok(listed) = read_listed(alloc, bytes) {
        for part in 0..listed.parts() {
            listed.push_part(&mut text, part)?;
        }
    }
    Ok(text)
}

#[test]
fn images_and_objects_are_listed(rt: HostRuntime) -> Result<(), Fail> {
    let cases: [(&[u8], &str); 3] = [
        (
            b"LRPX\x00\x01\x00\x00\x00\x00\x00\x00\x00\x01\x00\x00\x00\x00\x04\x01\x07\x17\x16",
            "entry 0\nfn 0 params 0 result 0 slots 0 code 4\n  0 PUSH8 7\n  2 PRINT\n  3 RET\n",
        ),
        (
            b"LROB\x00\x01\x00\x00\x00\x01\x00\x00\x00\x0amain::main\x01\x00\x00\x00\x00\x06\x15\x00\x00\x00\x01\x16\x00\x00\x00\x01\x00\x00\x00\x04m::f",
            "fn 0 main::main external params 0 result 0 slots 0 code 6\n  0 CALL 1\n  5 RET\nuse 1 m::f\n",
        ),
        (b"LRPX", ""),
    ];
    for (bytes, wanted) in cases {
        assert_eq!(rt;
            listing_of(rt.alloc(), bytes)?.as_slice(),
            wanted.as_bytes()
        );
    }
    Ok(())
}
