//! A pool whose bytes lie in memory, shared by any number of passes.
ghost use Rattle.std.specs.Prelude.{◌≡◌, ◌+◌, ◌-◌, ◌≤◌, ℕ, [], ◌∷◌, ◌++◌, length, IfOk, OnErr};
ghost use Rattle.std.specs.List.Sorted.{IsNonDecreasing};
ghost use Rattle.counting.specs.Count.{times, without};
ghost use Rattle.crossbeam_queue.specs.Passes.{view, IsPassOf, IsSamePass};
ghost use Rattle.token_pool.specs.View.{IsLive};
ghost use Rattle.token_pool.specs.Memory.{IsNewPool, IsRest, AreFree, MemoryTook, memory_told};
ghost use Rattle.token_pool.specs.Pool.{TakenBy, GivenBy};
ghost use Rattle.token_pool.specs.declared.pool.Given.TheVariants.{Done};

use crate::pass::PoolPass;
use crate::pool::{Given, Take, TokenPool};
use crate::queue::{ComeBack, GoOut, Queue, give_byte, put_all, take_byte};
use crate::view::View;
use crossbeam_queue::Pass;
use lar_bytes::Bytes;
use std::alloc::{AllocError, Global};
use std::marker::Model;
use std::sync::{Arc, Wait};

/// A pool made with some bytes. It never fails, and tells its free bytes while no pass is out.
#[derive(Drop)]
pub struct MemoryPool {
    queue: Arc<Queue>,
    pass: Pass<u8, View>,
}

impl Model for MemoryPool {
    ghost use Rattle.std.specs.Arc.{arc_value};
    ghost use Rattle.crossbeam_queue.specs.Passes.{view as known, IsPassOf, ruled_capacity};
    ghost use Rattle.token_pool.specs.Memory.{MemoryState, memory_state, IsPool};

    ghost Value = { MemoryState };

    ghost view = { λ p. memory_state p.pass.table_id (known p.pass) };

    ghost invariant = { λ p. IsPassOf (arc_value p.queue) p.pass × IsPool (known p.pass) (ruled_capacity (arc_value p.queue)) };
}

impl MemoryPool {
    /// A pool of at most 1,024 bytes, which are all free.
    pub fn new<R: Wait>(rt: &R, alloc: Global, bytes: &[u8]) -> Result<MemoryPool, AllocError>
        requires { length bytes.now ≤ 1024 }
        ensures { IfOk result (λ pool. IsNewPool bytes.now pool) }
    {
        let (queue, mut pass) = Queue::ruled(alloc, bytes.len().max(1))?;
        put_all(rt, &queue, &mut pass, bytes);
        let queue = Arc::new(alloc, queue)?;
        Ok(MemoryPool { queue, pass })
    }

    /// A pass more, which owes nothing.
    pub fn pass(&mut self) -> Result<PoolPass, AllocError>
        ensures pass { IfOk result (λ pass. (pass.queue ≡ self.old.queue) × (pass.owed ≡ [])) }
        ensures ok { IfOk result (λ _. self.new ≡ record self.old { passes = self.old.passes + 1 }) }
        ensures err { OnErr result (self.new ≡ self.old) }
    {
        let queue = Arc::try_clone(&self.queue)?;
        let pass = queue.another::<GoOut>(&mut self.pass);
        Ok(PoolPass { queue, pass })
    }

    /// Takes back a pass of this pool that owes nothing.
    pub fn back(&mut self, pass: PoolPass)
        requires queue { pass.queue ≡ self.old.queue }
        requires settled { (x : ℕ) → times x pass.owed ≡ 0 }
        ensures { self.new ≡ record self.old { passes = self.old.passes - 1 } }
    {
        let PoolPass { queue, pass } = pass;
        self.queue.absorb::<ComeBack>(&mut self.pass, pass);
        drop(queue);
    }

    /// The bytes that are free, in ascending order. Where no pass is out they are those that the
    /// pool was made with and does not owe.
    pub fn left<R: Wait>(self, rt: &R, alloc: Global) -> Result<Bytes, AllocError>
        ensures ascending { IfOk result (λ left. IsNonDecreasing left) }
        ensures free { IfOk result (λ left. AreFree (memory_told self).free left) }
        ensures all { IfOk result (λ left. self.passes ≡ 0 → (x : ℕ) → times x left + times x self.owed ≡ times x self.bytes) }
    {
        let MemoryPool { queue, mut pass } = self;
        let mut left = emptied(rt, alloc, &queue, &mut pass)?;
        left.sort_unstable();
        Ok(Bytes::from_vec(left))
    }
}

/// Takes byte after byte, until there is none.
fn emptied<R: Wait>(
    rt: &R,
    alloc: Global,
    queue: &Queue,
    pass: &mut Pass<u8, View>,
) -> Result<Vec<u8>, AllocError>
    requires queue { IsPassOf queue.now pass.old }
    requires live { IsLive (view pass.old) }
    ensures { IfOk result (λ bytes. IsRest (view pass.old) bytes.items) }
{
    let mut bytes = Vec::new(alloc);
    for _ in rt.forever() {
        match take_byte(rt, queue, pass) {
            Some(byte) => bytes.push(byte)?,
            None => return Ok(bytes),
        }
    }
    unreachable!()
}

impl TokenPool for MemoryPool {
    ghost told = { memory_told };

    fn try_take<R: Wait>(&mut self, rt: &R) -> Take
        ensures told { TakenBy (memory_told self.old) result (memory_told self.new) }
        ensures exact { MemoryTook self.old result self.new }
    {
        match take_byte(rt, &self.queue, &mut self.pass) {
            Some(byte) => Take::Byte(byte),
            None => Take::Empty,
        }
    }

    fn give<R: Wait>(&mut self, rt: &R, byte: u8) -> Given
        requires { 1 ≤ times byte self.old.owed }
        ensures told { GivenBy (memory_told self.old) byte result (memory_told self.new) }
        ensures exact { (result ≡ Done) × (self.new ≡ record self.old { owed = without byte self.old.owed }) }
    {
        give_byte(rt, &self.queue, &mut self.pass, byte);
        Given::Done
    }
}
