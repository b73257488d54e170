//! What the compiler and the world have between them, in the words of contracts.
//!
//! Files, sinks and stores are traits of the crates above. Whoever implements one keeps a count of its faults, which a caller
//! can cite as the only cause of a refusal, and may tell what it holds: bytes that were written, or a map from names to bytes.
//! Here stand the definitions for that, and what objects in memory are made of: [`HeldBytes`], a map from names to bytes, and
//! [`FailingCalls`], with which they fail at the calls that a test names and at no other. The crate stands on std alone.
#![tactic(auto)]

mod failing_calls;
mod held_bytes;

pub use failing_calls::FailingCalls;
pub use held_bytes::HeldBytes;

#[cfg(test)]
mod tests {
    use super::*;
    use std::test::Fail;

    #[test]
    fn names_hold_what_was_set_last(rt: HostRuntime) -> Result<(), Fail> {
        let alloc = rt.alloc();
        let mut held = HeldBytes::new(alloc);
        held.set(alloc, "b", &[1])?;
        held.set(alloc, "a", &[2, 3])?;
        held.set(alloc, "b", &[4])?;
        assert_eq!(rt; held.get("b").ok_or("no b")?, [4u8].as_slice());
        assert_eq!(rt; held.get("a").ok_or("no a")?, [2u8, 3].as_slice());
        assert!(rt; held.get("ab").is_none());
        Ok(())
    }

    #[test]
    fn the_named_calls_fail(rt: HostRuntime) -> Result<(), Fail> {
        let mut calls = FailingCalls::new(rt.alloc(), &[1, 3])?;
        for wanted in [false, true, false, true, false] {
            assert_eq!(rt; calls.next_fails(), wanted);
        }
        Ok(())
    }
}
