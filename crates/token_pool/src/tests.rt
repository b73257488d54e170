//! The worked rounds, and two threads on one pool. The clauses say what each call does; here each
//! call is made once on its way through, with ample memory, and the order is shown in which the
//! free bytes are handed out, of which only the pool that fails on purpose has a clause.
ghost use Rattle.std.specs.Prelude.{◌≡◌, ℕ};
ghost use Rattle.counting.specs.Count.{times};

use crate::{FaultyPool, Given, MemoryPool, PoolPass, Take, TokenPool};
use std::sync::Wait;
use std::test::*;
use std::thread;

const TURNS: u32 = 2_000;

#[test]
fn a_pool_of_one_byte(rt: HostRuntime) -> Result<(), Fail> {
    let mut pool = MemoryPool::new(&rt, rt.alloc(), b"a")?;
    let first = pool.try_take(&rt);
    assert_eq!(rt; first, Take::Byte(b'a'));
    assert_eq!(rt; pool.try_take(&rt), Take::Empty);
    if let Take::Byte(byte) = first {
        assert_eq!(rt; pool.give(&rt, byte), Given::Done);
    }
    let again = pool.try_take(&rt);
    assert_eq!(rt; again, Take::Byte(b'a'));
    if let Take::Byte(byte) = again {
        assert_eq!(rt; pool.give(&rt, byte), Given::Done);
    }
    assert_eq!(rt; pool.left(&rt, rt.alloc())?.as_slice(), b"a".as_slice());
    Ok(())
}

#[test]
fn a_take_that_fails_changes_nothing(rt: HostRuntime) -> Result<(), Fail> {
    let mut pool = FaultyPool::new(rt.alloc(), b"ab", &[1])?;
    assert_eq!(rt; pool.try_take(&rt), Take::Byte(b'a'));
    assert_eq!(rt; pool.try_take(&rt), Take::Failed);
    assert_eq!(rt; (pool.owed(b'a'), pool.owed(b'b')), (1, 0));
    assert_eq!(rt; pool.try_take(&rt), Take::Byte(b'b'));
    assert_eq!(rt; pool.try_take(&rt), Take::Empty);
    Ok(())
}

#[test]
fn a_give_that_fails_leaves_the_byte_owed(rt: HostRuntime) -> Result<(), Fail> {
    let mut pool = FaultyPool::new(rt.alloc(), b"b", &[1])?;
    assert_eq!(rt; pool.try_take(&rt), Take::Byte(b'b'));
    for wanted in [Given::Failed, Given::Done] {
        assert_eq!(rt; pool.owed(b'b'), 1);
        if pool.owed(b'b') >= 1 {
            assert_eq!(rt; pool.give(&rt, b'b'), wanted);
        }
    }
    assert_eq!(rt; pool.owed(b'b'), 0);
    assert_eq!(rt; pool.try_take(&rt), Take::Byte(b'b'));
    Ok(())
}

#[test]
fn left_is_in_order(rt: HostRuntime) -> Result<(), Fail> {
    let pool = MemoryPool::new(&rt, rt.alloc(), b"zabb")?;
    assert_eq!(rt; pool.left(&rt, rt.alloc())?.as_slice(), b"abbz".as_slice());
    let none = MemoryPool::new(&rt, rt.alloc(), b"")?;
    assert_eq!(rt; none.left(&rt, rt.alloc())?.as_slice(), b"".as_slice());
    Ok(())
}

// Takes a byte through a pass and gives it back, over and over.
fn take_and_give<R: Wait>(rt: &R, mut pass: PoolPass) -> (PoolPass, u32)
    requires { (x : ℕ) → times x pass.owed ≡ 0 }
    ensures { ((x : ℕ) → times x result.0.owed ≡ 0) × (result.0.queue ≡ pass.queue) }
{
    let mut taken = 0u32;
    for _ in 0..TURNS {
        if let Take::Byte(byte) = pass.try_take(rt) {
            pass.give(rt, byte);
            taken = taken.wrapping_add(1);
        }
    }
    (pass, taken)
}

#[test]
fn two_threads_on_one_pool(rt: HostRuntime) -> Result<(), Fail> {
    let mut pool = MemoryPool::new(&rt, rt.alloc(), b"ba")?;
    let first = pool.pass()?;
    let second = pool.pass()?;
    let ((first, taken), (second, also_taken)) = thread::join(
        &rt,
        move ||
            requires { (x : ℕ) → times x first.owed ≡ 0 }
            ensures { ((x : ℕ) → times x result.0.owed ≡ 0) × (result.0.queue ≡ first.queue) }
        { take_and_give(&rt, first) },
        move ||
            requires { (x : ℕ) → times x second.owed ≡ 0 }
            ensures { ((x : ℕ) → times x result.0.owed ≡ 0) × (result.0.queue ≡ second.queue) }
        { take_and_give(&rt, second) },
    );
    pool.back(first);
    pool.back(second);
    // Two bytes for two passes, each of which has one at most: a byte is free at every take.
    assert_eq!(rt; (taken, also_taken), (TURNS, TURNS));
    assert_eq!(rt; pool.left(&rt, rt.alloc())?.as_slice(), b"ab".as_slice());
    Ok(())
}

#[test]
fn passes_share_the_bytes(rt: HostRuntime) -> Result<(), Fail> {
    let mut pool = MemoryPool::new(&rt, rt.alloc(), b"ab")?;
    let mut first = pool.pass()?;
    let mut second = pool.pass()?;
    let Take::Byte(one) = first.try_take(&rt) else {
        panic!(rt; "a byte is free")
    };
    let Take::Byte(two) = second.try_take(&rt) else {
        panic!(rt; "a byte is free")
    };
    assert_eq!(rt; (one, two), (b'a', b'b'));
    let Take::Empty = first.try_take(&rt) else {
        panic!(rt; "no byte is free")
    };
    second.give(&rt, two);
    let Take::Byte(again) = first.try_take(&rt) else {
        panic!(rt; "a byte is free")
    };
    assert_eq!(rt; again, b'b');
    first.give(&rt, one);
    first.give(&rt, again);
    pool.back(first);
    pool.back(second);
    assert_eq!(rt; pool.left(&rt, rt.alloc())?.as_slice(), b"ab".as_slice());
    Ok(())
}

// Takes as many bytes as there are, one after the other, and gives each back.
fn take_all<R: Wait>(rt: &R, pool: &mut MemoryPool, most: usize) -> usize
    ensures { (x : ℕ) → times x pool.new.owed ≡ times x pool.old.owed }
{
    if most == 0 {
        return 0;
    }
    let Take::Byte(byte) = pool.try_take(rt) else {
        return 0;
    };
    let taken = take_all(rt, pool, most - 1);
    pool.give(rt, byte);
    taken.saturating_add(1)
}

#[test]
fn every_token_is_taken_and_given(rt: HostRuntime) -> Result<(), Fail> {
    let bytes = [b'+'; 63];
    let mut pool = MemoryPool::new(&rt, rt.alloc(), &bytes)?;
    assert_eq!(rt; take_all(&rt, &mut pool, 100), 63);
    assert_eq!(rt; pool.left(&rt, rt.alloc())?.as_slice(), bytes.as_slice());
    Ok(())
}
