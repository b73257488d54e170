//! A pass on a pool in memory.
ghost use Rattle.std.specs.Prelude.{◌≡◌, ◌≤◌};
ghost use Rattle.counting.specs.Count.{times, without};
ghost use Rattle.token_pool.specs.Pool.{TakenBy, GivenBy};
ghost use Rattle.token_pool.specs.Memory.{PassTook, pass_told};
ghost use Rattle.token_pool.specs.declared.pool.Given.TheVariants.{Done};

use crate::pool::{Given, Take, TokenPool};
use crate::queue::{Queue, give_byte, take_byte};
use crate::view::View;
use crossbeam_queue::Pass;
use std::marker::Model;
use std::sync::{Arc, Wait};

/// A pool over the free bytes of a [`MemoryPool`](crate::MemoryPool), which may go to another
/// thread. It never fails, and does not know which bytes are free. What it owes comes back only
/// through it, before the pool takes it back.
#[derive(Drop)]
pub struct PoolPass {
    pub(crate) queue: Arc<Queue>,
    pub(crate) pass: Pass<u8, View>,
}

impl Model for PoolPass {
    ghost use Rattle.std.specs.Arc.{arc_value};
    ghost use Rattle.crossbeam_queue.specs.Passes.{view as known, IsPassOf, ruled_capacity};
    ghost use Rattle.token_pool.specs.Memory.{PassState, pass_state, IsPass};

    ghost Value = { PassState };

    ghost view = { λ p. pass_state p.pass.table_id (known p.pass) };

    ghost invariant = { λ p. IsPassOf (arc_value p.queue) p.pass × IsPass (known p.pass) (ruled_capacity (arc_value p.queue)) };
}

impl TokenPool for PoolPass {
    ghost told = { pass_told };

    fn try_take<R: Wait>(&mut self, rt: &R) -> Take
        ensures told { TakenBy (pass_told self.old) result (pass_told self.new) }
        ensures exact { PassTook self.old result self.new }
    {
        match take_byte(rt, &self.queue, &mut self.pass) {
            Some(byte) => Take::Byte(byte),
            None => Take::Empty,
        }
    }

    fn give<R: Wait>(&mut self, rt: &R, byte: u8) -> Given
        requires { 1 ≤ times byte self.old.owed }
        ensures told { GivenBy (pass_told self.old) byte result (pass_told self.new) }
        ensures exact { (result ≡ Done) × (self.new ≡ record self.old { owed = without byte self.old.owed }) }
    {
        give_byte(rt, &self.queue, &mut self.pass, byte);
        Given::Done
    }
}
