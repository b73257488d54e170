//! A gate at which jobs meet. It opens when as many have come as it waits for, which shows that they
//! are out at once, each in a thread of its own; or when it has waited long enough.
ghost use Rattle.std.specs.Prelude.{◌≡◌, IfOk, vec_len};

use super::table::Plan;
use super::{Said, driven, of};
use crate::gate::Gate;
use crossbeam_utils::atomic::AtomicCell;
use std::alloc::{AllocError, Global};
use std::sync::{Arc, Wait};
use std::test::*;
use token_pool::{MemoryPool, Take, TokenPool};

const FIVE: u32 = 5;

/// A gate that opens for all at once.
#[derive(Drop)]
struct Meeting {
    /// How many jobs have come.
    come: AtomicCell<u32>,
    /// Whether one has waited for too long.
    late: AtomicCell<bool>,
    /// For how many turns each waits.
    turns: u64,
}

impl Meeting {
    fn new(turns: u64) -> Meeting {
        Meeting {
            come: AtomicCell::new(0),
            late: AtomicCell::new(false),
            turns,
        }
    }

    // Whether the last one that came opened the gate.
    fn met(&self) -> bool {
        self.come.load() == FIVE && !self.late.load()
    }
}

impl Gate for Meeting {
    fn pass<R: Wait>(&self, _rt: &R, _unit: u32) {
        self.come.fetch_add(1);
        for _ in 0..self.turns {
            if self.come.load() >= FIVE {
                return;
            }
        }
        self.late.store(true);
    }
}

fn five_plans(alloc: Global) -> Result<Vec<Plan>, AllocError>
    ensures { IfOk result (λ plans. vec_len plans ≡ 5) }
{
    let plans = [
        Plan::made(3, 0),
        Plan::made(3, 1),
        Plan::made(3, 2),
        Plan::made(3, 3),
        Plan::made(9, 4),
    ];
    plans.to_vec(alloc)
}

#[test]
fn five_jobs_are_out_at_once(rt: HostRuntime) -> Result<(), Fail> {
    let gate = Arc::new(rt.alloc(), Meeting::new(1_000_000_000))?;
    let mut pool = MemoryPool::new(&rt, rt.alloc(), b"abcd")?;
    let plans = five_plans(rt.alloc())?;
    let driven = driven(&rt, rt.alloc(), plans, &gate, &mut pool, 5, false)?;
    assert!(rt; gate.met());
    for unit in 0..5usize {
        assert_eq!(rt; of(&driven, unit), Said::Byte(unit as u8));
    }
    assert_eq!(rt; pool.left(&rt, rt.alloc())?.as_slice(), b"abcd".as_slice());
    Ok(())
}

// What a coordinator would do that took its tokens and then ran the jobs one after another by itself.
fn one_after_another<G: Gate, R: Wait>(rt: &R, gate: &Arc<G>, pool: &mut MemoryPool) -> u32 {
    let mut taken = 0u32;
    for unit in 0..FIVE {
        if let Take::Byte(_) = pool.try_take(rt) {
            taken = taken.saturating_add(1);
        }
    }
    for unit in 0..FIVE {
        gate.pass(rt, unit);
    }
    taken
}

#[test]
fn jobs_one_after_another_do_not_open_the_gate(rt: HostRuntime) -> Result<(), Fail> {
    let gate = Arc::new(rt.alloc(), Meeting::new(1_000_000))?;
    let mut pool = MemoryPool::new(&rt, rt.alloc(), b"abcd")?;
    assert_eq!(rt; one_after_another(&rt, &gate, &mut pool), 4);
    assert!(rt; !gate.met());
    Ok(())
}
