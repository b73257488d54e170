//! Pools of job tokens, which are single bytes.
//!
//! Whoever starts a job beyond its first takes a byte from a pool, and gives the same byte back
//! afterwards: tokens may differ, as a jobserver's do. The trait [`TokenPool`] says what a take and
//! a give change, in four things that a pool tells (`specs/Pool.antt`): the bytes that are owed, as
//! a bag; the free bytes, where the pool knows them; the number of its faults, which is the only
//! cause of a failed call; and, where told, how many takes answered a byte. Only a byte that is
//! owed can be given.
//!
//! A [`MemoryPool`] keeps its free bytes in a queue that threads share, and hands out any number of
//! [`PoolPass`]es, each a pool of its own over the same queue, for another thread. Over all
//! schedules the free bytes with what the pool and its passes owe are the bytes that it was made
//! with (`specs/Rule.antt`). A [`FaultyPool`] stands for an outside that fails: at the calls that a
//! test names, and at no other.
//!
//! It stands on the kit's `crossbeam_queue`, whose queue keeps a rule over what it holds and over
//! what each holder of a pass knows, on `outside` for counted calls, and on `lar_bytes` for bytes.
#![tactic(auto)]

mod faulty;
mod memory;
mod pass;
mod pool;
mod queue;
mod view;

pub use faulty::FaultyPool;
pub use memory::MemoryPool;
pub use pass::PoolPass;
pub use pool::{Given, Take, TokenPool};
pub use view::{Hand, View};

#[cfg(test)]
mod tests;
