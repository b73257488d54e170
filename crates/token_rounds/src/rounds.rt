//! The two rounds: lend, begin, end, spend on one desk, and take, give on one pool.
use lease_table::Leases;
use std::alloc::{AllocError, Global};
use std::sync::Wait;
use token_pool::{MemoryPool, Take, TokenPool};

/// Lends, begins, ends and spends so often. Answers the greatest number that was seen running.
pub fn lease_rounds(alloc: Global, count: u64) -> Result<u8, AllocError> {
    let mut desk = Leases::new(alloc)?;
    let mut most = 0;
    for _ in 0..count {
        let (busy, reading) = desk.lend().begin();
        most = reading.running.max(most);
        desk.spend(busy.end());
    }
    desk.close();
    Ok(most)
}

/// Takes a byte and gives it back so often. Answers how many were taken.
pub fn token_rounds<R: Wait>(rt: &R, alloc: Global, count: u64) -> Result<u64, AllocError> {
    let mut pool = MemoryPool::new(rt, alloc, b"+")?;
    let mut taken = 0u64;
    for _ in 0..count {
        if let Take::Byte(byte) = pool.try_take(rt) {
            pool.give(rt, byte);
            taken = taken.wrapping_add(1);
        }
    }
    Ok(taken)
}
