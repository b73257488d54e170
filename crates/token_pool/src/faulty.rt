//! A pool that fails at the calls that it is told.
ghost use Rattle.std.specs.Prelude.{◌≡◌, ◌≤◌, ◌==◌, count_by, IfOk};
ghost use Rattle.token_pool.specs.Pool.{TakenBy, GivenBy};
ghost use Rattle.token_pool.specs.Faulty.{faulty_told, new_faulty, FaultyTook, FaultyGave};

use crate::pool::{Given, Take, TokenPool};
use outside::FailingCalls;
use std::alloc::{AllocError, Global};
use std::collections::VecDeque;
use std::marker::Model;
use std::sync::Wait;

/// A pool made with some bytes, of whose calls some fail. It tells its free bytes, and the number
/// of its takes that answered a byte while that is below the last value of a `u64`.
#[derive(Drop)]
pub struct FaultyPool {
    bytes: Vec<u8>,
    free: VecDeque<u8>,
    taken: u64,
    calls: FailingCalls,
}

impl Model for FaultyPool {
    ghost use Rattle.std.specs.VecDeque.{deque_len, deque_capacity};
    ghost use Rattle.token_pool.specs.Faulty.{FaultyState, IsStocked};

    ghost Value = { FaultyState };

    ghost view = { λ p. record { bytes = p.bytes.items; free = p.free.items; taken = p.taken; calls = p.calls } };

    ghost invariant = { λ p. IsStocked p.bytes.items p.free.items (deque_len p.free) (deque_capacity p.free) };
}

impl FaultyPool {
    /// A pool whose bytes are all free. Its calls with the numbers in `failing`, from 0, are to fail.
    pub fn new(alloc: Global, bytes: &[u8], failing: &[u64]) -> Result<FaultyPool, AllocError>
        ensures { IfOk result (λ pool. pool ≡ new_faulty bytes.now failing.now) }
    {
        let calls = FailingCalls::new(alloc, failing)?;
        let mut free = VecDeque::with_capacity(alloc, bytes.len())?;
        for byte in bytes {
            free.push_back_reserved(*byte);
        }
        Ok(FaultyPool {
            bytes: bytes.to_vec(alloc)?,
            free,
            taken: 0,
            calls,
        })
    }

    /// How often this byte was taken and not given back.
    pub fn owed(&self, byte: u8) -> usize
        ensures { result ≡ (faulty_told self.now).owed byte }
    {
        self.made(byte).saturating_sub(self.free(byte))
    }

    fn made(&self, byte: u8) -> usize
        ensures { result ≡ count_by (λ made. byte == made) self.now.bytes }
    {
        self.bytes.iter().filter(|made| byte == **made).count()
    }

    fn free(&self, byte: u8) -> usize
        ensures { result ≡ count_by (λ free. byte == free) self.now.free }
    {
        self.free.iter().filter(|free| byte == **free).count()
    }
}

impl TokenPool for FaultyPool {
    ghost told = { faulty_told };

    fn try_take<R: Wait>(&mut self, _rt: &R) -> Take
        ensures told { TakenBy (faulty_told self.old) result (faulty_told self.new) }
        ensures exact { FaultyTook self.old result self.new }
    {
        if self.calls.next_fails() {
            return Take::Failed;
        }
        match self.free.pop_front() {
            Some(byte) => {
                self.taken = self.taken.saturating_add(1);
                Take::Byte(byte)
            }
            None => Take::Empty,
        }
    }

    fn give<R: Wait>(&mut self, _rt: &R, byte: u8) -> Given
        requires { 1 ≤ (faulty_told self.old).owed byte }
        ensures told { GivenBy (faulty_told self.old) byte result (faulty_told self.new) }
        ensures exact { FaultyGave self.old byte result self.new }
    {
        if self.calls.next_fails() {
            return Given::Failed;
        }
        self.free.push_back_reserved(byte);
        Given::Done
    }
}
